//! A maximum flow over a definition's adjacency lists.
ghost use Rattle.std.specs.Prelude.{◌≡◌, ◌<◌, ◌^◌, IfOk, map};
ghost use Rattle.saga_flow.specs.Network.{IsNetwork};
ghost use Rattle.saga_flow.specs.Reached.{HasUnbounded, Reaches};
ghost use Rattle.saga_closure.specs.CaseNet.{network_of};
ghost use Rattle.saga_closure.specs.Layers.{IsReach, is_level};
ghost use Rattle.saga_closure.specs.Nets.{terms_in, arcs_in};
ghost use Rattle.saga_closure.specs.Largest.{IsLargest, IsOnTheWay};
ghost use Rattle.saga_closure.specs.Rows.{AreRows};

use crate::nets::{ClosureNet, Residual};
use crate::pairs::{send_over_needs, send_straight};
use crate::phases::run_phase;
use crate::rows::{Rows, rows_of};
use crate::searching::{Found, NONE, search, start};
use saga_flow::Progress;
use std::alloc::{AllocError, Global};

/// A maximum flow of a case's network.
#[derive(Debug, Drop)]
pub struct ClosureFlow {
    /// The amount that leaves the source.
    pub value: u64,
    /// The amount on each arc: from the source to each step, from each step to the sink, and along each need.
    pub on: Vec<u64>,
    /// The number of rounds that lead from the empty flow to this one.
    pub rounds: u64,
    /// Whether the source reaches each step in the flow's residual network.
    pub reached: Vec<bool>,
}

/// Computes the flow, round by round. Each round augments along a shortest path by the maximum amount that it carries.
///
/// (The method is that of Ford and Fulkerson, the bound on rounds is that of Edmonds and Karp, 1972. Paths are found in
/// phases, as by Dinic, 1970.)
pub fn largest(alloc: Global, net: &ClosureNet) -> Result<ClosureFlow, AllocError>
    requires network { IsNetwork (network_of (terms_in net.now)) }
    requires apart { Reaches (HasUnbounded (arcs_in net.now)) 0 1 → ⊥ }
    ensures { IfOk result (IsLargest (terms_in net.now)) }
{
    let arcs = 2 * net.definition.steps() + net.definition.needs();
    let mut progress = Progress {
        on: vec![in alloc; 0u64; arcs]?,
        value: 0,
        rounds: 0,
    };
    send_straight(net, &mut progress);
    send_over_needs(net, &mut progress);
    let residual = Residual {
        net: &*net,
        on: progress.on.as_slice(),
    };
    let found = start(alloc, &residual)?;
    if found.order.is_empty() {
        return flow_of(alloc, net, progress, &found);
    }
    let mut rows = rows_of(alloc, &residual)?;
    run_phases(alloc, net, progress, &mut rows)
}

/// Runs phases until a search finds no goal.
fn run_phases(
    alloc: Global,
    net: &ClosureNet,
    begun: Progress,
    rows: &mut Rows,
) -> Result<ClosureFlow, AllocError>
    requires network { IsNetwork (network_of (terms_in net.now)) }
    requires apart { Reaches (HasUnbounded (arcs_in net.now)) 0 1 → ⊥ }
    requires progress { IsOnTheWay (terms_in net.now) begun }
    requires small { begun.value < 2 ^ 63 }
    requires rows { AreRows (terms_in net.now) begun.on.items rows.old }
    ensures { IfOk result (IsLargest (terms_in net.now)) }
{
    let mut progress = begun;
    loop {
        let residual = Residual {
            net: &*net,
            on: progress.on.as_slice(),
        };
        let (found, goal) = search(alloc, &residual, rows)?;
        match goal {
            Some(goal) => run_phase(alloc, net, &found, goal, &mut progress, rows)?,
            None => return flow_of(alloc, net, progress, &found),
        }
    }
}

/// The flow for which a search found no goal.
fn flow_of(
    alloc: Global,
    net: &ClosureNet,
    progress: Progress,
    found: &Found,
) -> Result<ClosureFlow, AllocError>
    requires network { IsNetwork (network_of (terms_in net.now)) }
    requires progress { IsOnTheWay (terms_in net.now) progress }
    requires reach { IsReach (terms_in net.now) progress.on.items found.now }
    ensures { IfOk result (IsLargest (terms_in net.now)) }
{
    let reached = are_labelled(alloc, &found.level)?;
    let Progress { on, value, rounds } = progress;
    Ok(ClosureFlow {
        value,
        on,
        rounds,
        reached,
    })
}

/// Which steps have a level.
fn are_labelled(alloc: Global, level: &[u16]) -> Result<Vec<bool>, AllocError>
    ensures { IfOk result (λ r. r.items ≡ map is_level level.now) }
{
    level.iter().map(|level| *level < NONE).collect(alloc)
}
