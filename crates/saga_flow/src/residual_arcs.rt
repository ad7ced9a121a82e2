//! Residual arcs: an arc, taken along it or against it.
ghost use Rattle.std.specs.Prelude.{◌≡◌, ◌<◌, ℕ, length};
ghost use Rattle.saga_flow.specs.Residual.{Leads};
ghost use Rattle.saga_flow.specs.Listed.{turned};

use crate::nets::Arc;

/// An arc of the residual network: the network's arc with this number, along it or against it.
#[derive(Clone, Copy, Debug, PartialEq, Eq)]
pub struct ResidualArc {
    pub arc: usize,
    pub forward: bool,
}

impl ResidualArc {
    /// The reverse of the residual arc.
    pub fn turned(self) -> Self
        ensures { result ≡ turned self }
    {
        ResidualArc {
            arc: self.arc,
            forward: !self.forward,
        }
    }
}

/// The tail of a residual arc.
pub fn tail(arcs: &[Arc], residual: ResidualArc) -> usize
    requires { residual.arc < length arcs.now }
    ensures { (to : ℕ) × Leads arcs.now residual result to }
{
    let arc = arcs[residual.arc];
    if residual.forward {
        arc.from as usize
    } else {
        arc.to as usize
    }
}
