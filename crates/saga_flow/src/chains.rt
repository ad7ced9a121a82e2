//! The path from a node to the start of a search.
ghost use Rattle.std.specs.Prelude.{IfOk, IsSome};
ghost use Rattle.saga_flow.specs.Marks.{mark_at};
ghost use Rattle.saga_flow.specs.Search.{IsTree, IsHomeArc};
ghost use Rattle.saga_flow.specs.Rounds.{IsTrail};

use crate::marks::Marks;
use crate::nets::Arc;
use crate::residual_arcs::{ResidualArc, tail};
use std::alloc::{AllocError, Global};

/// The residual arcs from the source to the sink, if a backward search started at the sink: the residual arc of each
/// node's mark, reversed.
pub fn path_home(alloc: Global, arcs: &[Arc], marks: &Marks) -> Result<Vec<ResidualArc>, AllocError>
    requires tree { IsTree arcs.now 1 marks.now }
    requires marked { IsSome (mark_at marks.now 0) }
    ensures { IfOk result (λ path. IsTrail (IsHomeArc arcs.now marks.now) 0 path.items 1) }
{
    let mut path = Vec::with_capacity(alloc, marks.depth(0) as usize)?;
    let mut node = 0;
    while let Some(residual) = marks.by(node) {
        path.push(residual.turned())?;
        node = tail(arcs, residual);
    }
    Ok(path)
}
