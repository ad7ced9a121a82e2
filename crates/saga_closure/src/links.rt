//! The residual arcs over the needs of a step, in both directions: along the needs, and back over the needs with a
//! positive amount.
ghost use Rattle.std.specs.Prelude.{◌<◌, ◌↔◌, IsTrue, length};
ghost use Rattle.saga_closure.specs.Links.{AreLinks, LetsThrough};

use crate::nets::Residual;
use saga_def::Definition;
use saga_flow::ResidualArc;

/// The steps to which the residual arcs of a direction lead from a step, and the index of the need of each. With
/// `forward` these are the steps that it needs, and otherwise the steps that need it.
pub fn links_from(definition: &Definition, v: u16, forward: bool) -> (&[u16], &[u16])
    requires { v < length definition.now.steps }
    ensures { AreLinks
        definition.now.needs (length definition.now.steps) forward v result.0.now result.1.now }
{
    if forward {
        (definition.needs_of(v), definition.places_of(v))
    } else {
        (definition.needed_by(v), definition.places_on(v))
    }
}

/// Whether the residual arc of a need has capacity left.
pub fn lets_through(residual: &Residual, over: ResidualArc) -> bool
    requires { over.arc < length residual.now.on.now }
    ensures { IsTrue result ↔ LetsThrough residual.now.on.now over }
{
    over.forward || residual.on[over.arc] > 0
}
