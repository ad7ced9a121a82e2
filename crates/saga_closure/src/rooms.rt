//! The residual capacities of arcs.
ghost use Rattle.std.specs.Prelude.{◌≡◌, ◌<◌, ◌+◌, ◌^◌, length};
ghost use Rattle.saga_flow.specs.Residual.{Carries};
ghost use Rattle.saga_closure.specs.Capacities.{room_at};
ghost use Rattle.saga_closure.specs.Nets.{arcs_in};

use crate::capacities::ENDLESS;
use crate::nets::Residual;
use saga_flow::ResidualArc;

/// The residual capacity of an arc from the source or to the sink. The value 2^63 means unbounded.
pub fn room_along(residual: &Residual, arc: usize) -> u64
    requires { arc < length residual.now.net.now.caps.now }
    ensures { result ≡ room_at residual.now.net.now.caps.now residual.now.on.now arc }
{
    let most = residual.net.caps[arc];
    if most == ENDLESS {
        ENDLESS
    } else {
        most.saturating_sub(residual.on[arc])
    }
}

/// The residual capacity of a residual arc. The value 2^63 means unbounded.
pub fn room(residual: &Residual, over: ResidualArc) -> u64
    requires carries { Carries (arcs_in residual.now.net.now) residual.now.on.now 1 over }
    ensures some { 0 < result }
    ensures carries { Carries (arcs_in residual.now.net.now) residual.now.on.now result over }
    ensures most { result < 2 ^ 63
        → Carries (arcs_in residual.now.net.now) residual.now.on.now (result + 1) over → ⊥ }
{
    if !over.forward {
        residual.on[over.arc]
    } else if over.arc < residual.net.caps.len() {
        room_along(residual, over.arc)
    } else {
        ENDLESS
    }
}
