//! The nodes that the source reaches: in the residual network of a flow, and along unbounded arcs.
ghost use Rattle.std.specs.Prelude.{◌≡◌, ◌<◌, ◌↔◌, ℕ, ◌∷◌, List, IfOk, IfNone, IfSome, IsTrue, length, slice_index_or, false};
ghost use Rattle.saga_flow.specs.Reached.{HasUnbounded, IsPath, Reaches};
ghost use Rattle.saga_flow.specs.Residual.{IsResidual};
ghost use Rattle.saga_flow.specs.Listed.{LeadsEndless};
ghost use Rattle.saga_flow.specs.Rounds.{IsTrail};

use crate::chains::path_home;
use crate::flows::Flow;
use crate::gates::{Backward, Endless, Residual};
use crate::graphs::graph_of;
use crate::nets::{Arc, Net};
use crate::residual_arcs::ResidualArc;
use crate::searching::search;
use std::alloc::{AllocError, Global};

/// For each node, whether the source reaches it in the residual network of a flow: along arcs with residual capacity,
/// and against arcs with a positive amount.
///
/// The caller passes one amount for each arc. The only error is lack of memory.
pub fn reach(alloc: Global, net: &Net, flow: &Flow) -> Result<Vec<bool>, AllocError>
    requires sized { length flow.now.on.items ≡ length net.now.arcs }
    ensures sized { IfOk result (λ r. length r.items ≡ net.now.nodes) }
    ensures exact { IfOk result
        (λ r. (node : ℕ) → node < net.now.nodes
        → (IsTrue (slice_index_or r.items node false)
        ↔ Reaches (IsResidual net.now.arcs flow.now.on.items) 0 node)) }
{
    let graph = graph_of(alloc, net)?;
    let open = Residual {
        arcs: graph.arcs,
        on: flow.on.as_slice(),
    };
    let marks = search(alloc, &graph, &open, 0, None)?;
    marks.all(alloc)
}

/// The nodes of a path of unbounded arcs from the source, which comes first, to the sink, which comes last. Returns
/// `None` if there is no such path.
///
/// The only error is lack of memory.
pub fn unbounded_path(alloc: Global, net: &Net) -> Result<Option<Vec<u32>>, AllocError>
    ensures some { IfOk result
        (λ found. IfSome found
        (λ nodes. (rest : List ℕ) × (nodes.items ≡ 0 ∷ rest)
        × IsPath (HasUnbounded net.now.arcs) nodes.items 1)) }
    ensures none { IfOk result
        (λ found. IfNone found (Reaches (HasUnbounded net.now.arcs) 0 1 → ⊥)) }
{
    let graph = graph_of(alloc, net)?;
    let endless = Endless { arcs: graph.arcs };
    let marks = search(alloc, &graph, &Backward { gate: &endless }, 1, Some(0))?;
    if !marks.is_marked(0) {
        return Ok(None);
    }
    let path = path_home(alloc, graph.arcs, &marks)?;
    Ok(Some(nodes_of(alloc, graph.arcs, path.as_slice())?))
}

/// The source, and the head of each residual arc.
fn nodes_of(alloc: Global, arcs: &[Arc], path: &[ResidualArc]) -> Result<Vec<u32>, AllocError>
    requires { IsTrail (LeadsEndless arcs.now) 0 path.now 1 }
    ensures first { IfOk result (λ nodes. (rest : List ℕ) × (nodes.items ≡ 0 ∷ rest)) }
    ensures path { IfOk result (λ nodes. IsPath (HasUnbounded arcs.now) nodes.items 1) }
{
    let mut nodes = Vec::new(alloc);
    nodes.push(0u32)?;
    for residual in path {
        nodes.push(arcs[residual.arc].to)?;
    }
    Ok(nodes)
}
