//! A maximum flow, and the number of rounds to it.
ghost use Rattle.std.specs.Prelude.{◌≡◌, ◌≤◌, ◌*◌, IfOk, OnOk, length};
ghost use Rattle.saga_flow.specs.Flows.{HasValue, IsFlow, IsGreatest};
ghost use Rattle.saga_flow.specs.Reached.{HasUnbounded, Reaches};
ghost use Rattle.saga_flow.specs.Residual.{IsResidual};
ghost use Rattle.saga_flow.specs.Rounds.{IsReachedIn};

use crate::gates::{Backward, Residual};
use crate::graphs::graph_of;
use crate::nets::Net;
use crate::phases::run_phase;
use crate::rounds::Progress;
use crate::searching::search;
use std::alloc::{AllocError, Global};

/// A flow through a network.
#[derive(Debug, Drop)]
pub struct Flow {
    /// The amount that leaves the source minus the amount that enters it.
    pub value: u64,
    /// The amount on each arc, in the order of the network's arcs.
    pub on: Vec<u64>,
}

/// Returns a maximum flow: no other flow of the network has a larger value. The sink is not reached in its residual
/// network.
///
/// The caller ensures that no path of unbounded arcs leads from source to sink (`unbounded_path`). The contract does
/// not say which of several maximum flows the result is. The only error is lack of memory.
pub fn largest(alloc: Global, net: &Net) -> Result<Flow, AllocError>
    requires apart { Reaches (HasUnbounded net.now.arcs) 0 1 → ⊥ }
    ensures flow { IfOk result (λ f. IsFlow net.now.arcs f.on.items) }
    ensures value { IfOk result (λ f. HasValue net.now.arcs f.on.items f.value) }
    ensures greatest { IfOk result (λ f. IsGreatest net.now.arcs f.value) }
    ensures cut { IfOk result (λ f. Reaches (IsResidual net.now.arcs f.on.items) 0 1 → ⊥) }
{
    let (flow, _rounds) = largest_counted(alloc, net)?;
    Ok(flow)
}

/// Returns the flow of `largest`, with the number of rounds that lead to it from the empty flow.
///
/// Each round augments by the maximum amount along a path with the minimum number of arcs from source to sink in the
/// residual network. So there are at most as many rounds as the flow's value, and at most nodes times arcs. (The method
/// is that of Ford and Fulkerson, the bound is that of Edmonds and Karp, 1972. Paths are found in phases, as by Dinic,
/// 1970.)
pub fn largest_counted(alloc: Global, net: &Net) -> Result<(Flow, u64), AllocError>
    requires apart { Reaches (HasUnbounded net.now.arcs) 0 1 → ⊥ }
    ensures flow { IfOk result (λ r. IsFlow net.now.arcs r.0.on.items) }
    ensures value { IfOk result (λ r. HasValue net.now.arcs r.0.on.items r.0.value) }
    ensures greatest { IfOk result (λ r. IsGreatest net.now.arcs r.0.value) }
    ensures cut { IfOk result (λ r. Reaches (IsResidual net.now.arcs r.0.on.items) 0 1 → ⊥) }
    ensures rounds { IfOk result (λ r. IsReachedIn net.now.arcs r.0.on.items r.1) }
    ensures by_value { IfOk result (λ r. r.1 ≤ r.0.value) }
    ensures by_size { IfOk result (λ r. r.1 ≤ net.now.nodes * length net.now.arcs) }
{
    let graph = graph_of(alloc, net)?;
    let mut progress = Progress {
        on: vec![in alloc; 0u64; graph.arcs.len()]?,
        value: 0,
        rounds: 0,
    };
    loop {
        let open = Residual {
            arcs: graph.arcs,
            on: progress.on.as_slice(),
        };
        let marks = search(alloc, &graph, &Backward { gate: &open }, 1, Some(0))?;
        if !marks.is_marked(0) {
            break;
        }
        run_phase(alloc, &graph, &marks, &mut progress)?;
    }
    let Progress { on, value, rounds } = progress;
    Ok((Flow { value, on }, rounds))
}
