//! Gates: which residual arcs a search may take.
ghost use Rattle.std.specs.Prelude.{◌≡◌, ◌<◌, ℕ, ◌↔◌, IsTrue, length, slice_get, Some};

use crate::nets::{Arc, Cap};
use crate::residual_arcs::ResidualArc;

/// A filter of residual arcs.
pub trait Gate {
    ghost use Rattle.saga_flow.specs.declared.residual_arcs.ResidualArc.{ResidualArc};

    ghost count: { Self → ℕ };

    ghost passes: { Self → ResidualArc → Type 0 };

    /// Whether a residual arc may be taken.
    fn lets_pass(&self, residual: ResidualArc) -> bool
        requires { residual.arc < count self.now }
        ensures { IsTrue result ↔ passes self.now residual };
}

/// The arcs of the residual network: along an arc with residual capacity, or against an arc with a positive amount.
#[derive(Drop)]
pub struct Residual<'a> {
    pub arcs: &'a [Arc],
    pub on: &'a [u64],
    ghost sized: { length on.now ≡ length arcs.now },
}

impl Gate for Residual<'_> {
    ghost use Rattle.saga_flow.specs.Residual.{Carries};

    ghost count = { λ r. length r.arcs.now };

    ghost passes = { λ r s. Carries r.arcs.now r.on.now 1 s };

    fn lets_pass(&self, residual: ResidualArc) -> bool {
        let carried = self.on[residual.arc];
        if residual.forward {
            match self.arcs[residual.arc].cap {
                Cap::Of(most) => carried < most,
                Cap::Unbounded => true,
            }
        } else {
            carried > 0
        }
    }
}

/// The residual arcs along unbounded arcs.
#[derive(Drop)]
pub struct Endless<'a> {
    pub arcs: &'a [Arc],
}

impl Gate for Endless<'_> {
    ghost use Rattle.saga_flow.specs.Listed.{IsEndless};

    ghost count = { λ r. length r.arcs.now };

    ghost passes = { λ r s. IsEndless r.arcs.now s };

    fn lets_pass(&self, residual: ResidualArc) -> bool {
        residual.forward && matches!(self.arcs[residual.arc].cap, Cap::Unbounded)
    }
}

/// The residual arcs whose reverse another gate lets pass.
#[derive(Drop)]
pub struct Backward<'a, G: Gate> {
    pub gate: &'a G,
}

impl<G: Gate> Gate for Backward<'_, G> {
    ghost use Rattle.saga_flow.specs.Listed.{turned};

    ghost count = { λ b. G.count b.gate.now };

    ghost passes = { λ b s. G.passes b.gate.now (turned s) };

    fn lets_pass(&self, residual: ResidualArc) -> bool {
        self.gate.lets_pass(residual.turned())
    }
}
