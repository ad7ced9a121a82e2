//! Phases: a search computes the distance of each node to the sink, and a depth-first search with a current arc at each
//! node finds a blocking flow: all paths in which each residual arc decreases the distance.
ghost use Rattle.std.specs.Prelude.{◌≡◌, ◌<◌, ◌≤◌, ◌+◌, ◌^◌, ℕ, All, IfOk, IfSome, IsSome, IsTrue, OnOk, Some, length, vec_len};
ghost use Rattle.saga_flow.specs.Listed.{turned};
ghost use Rattle.saga_flow.specs.Reached.{HasUnbounded, Reaches};
ghost use Rattle.saga_flow.specs.Residual.{Carries};
ghost use Rattle.saga_flow.specs.Levels.{Nears};
ghost use Rattle.saga_flow.specs.Marks.{far_in, mark_at};
ghost use Rattle.saga_flow.specs.Search.{IsSearchTree};
ghost use Rattle.saga_flow.specs.Rounds.{IsTrail};
ghost use Rattle.saga_flow.specs.Progress.{IsProgress};

use crate::chains::path_home;
use crate::gates::{Gate, Residual};
use crate::graphs::Graph;
use crate::marks::Marks;
use crate::residual_arcs::{ResidualArc, tail};
use crate::rounds::{Progress, augment};
use std::alloc::{AllocError, Global};

/// Augments by the maximum amount along the path of a backward search from the sink to the source. Then it does the
/// same along each further path in which each residual arc decreases the distance.
///
/// Each of these paths has the minimum number of arcs at that time, so each augmentation is a round. Together they are
/// a blocking flow (Dinic's phases).
pub fn run_phase(
    alloc: Global,
    graph: &Graph,
    marks: &Marks,
    progress: &mut Progress,
) -> Result<(), AllocError>
    requires apart { Reaches (HasUnbounded graph.now.arcs.now) 0 1 → ⊥ }
    requires tree { IsSearchTree graph.now.nodes graph.now.arcs.now
        (λ s. Carries graph.now.arcs.now progress.old.on.items 1 (turned s)) 1 (Some 0) marks.now }
    requires marked { IsSome (mark_at marks.now 0) }
    requires progress { IsProgress graph.now.nodes graph.now.arcs.now progress.old.on.items
        progress.old.value progress.old.rounds }
    ensures progress { OnOk result
        (IsProgress graph.now.nodes graph.now.arcs.now progress.new.on.items progress.new.value
        progress.new.rounds) }
    ensures more { OnOk result (progress.old.value < progress.new.value) }
{
    let mut left = Vec::from_slice(alloc, graph.degrees())?;
    let mut path = path_home(alloc, graph.arcs, marks)?;
    augment(graph.arcs, path.as_slice(), progress);
    while next_path(graph, progress.on.as_slice(), marks, &mut left, &mut path)? {
        augment(graph.arcs, path.as_slice(), progress);
        put_back(graph, path.as_slice(), left.as_mut_slice());
    }
    Ok(())
}

/// Searches for a path of open residual arcs from source to sink in which each arc decreases the distance by one.
///
/// `left` has the number of untried residual arcs of each node. `path` is overwritten. (Dinic's search with a current
/// arc at each node.)
fn next_path(
    graph: &Graph,
    on: &[u64],
    marks: &Marks,
    left: &mut Vec<usize>,
    path: &mut Vec<ResidualArc>,
) -> Result<bool, AllocError>
    requires sized { length on.now ≡ length graph.now.arcs.now }
    requires marks { length marks.now ≡ graph.now.nodes }
    requires left { vec_len left.old ≡ graph.now.nodes }
    ensures left { vec_len left.new ≡ vec_len left.old }
    ensures found { IfOk result
        (λ found. IsTrue found
        → IsTrail (Nears graph.now.arcs.now on.now (far_in marks.now)) 0 path.new.items 1) }
{
    path.clear();
    let mut node = 0;
    while node != 1 {
        match arc_nearer(graph, on, marks, node, left[node]) {
            Some(nearer) => {
                left[node] = nearer.left;
                path.push(nearer.residual)?;
                node = nearer.to;
            }
            None => {
                left[node] = 0;
                match path.pop() {
                    None => return Ok(false),
                    Some(residual) => node = tail(graph.arcs, residual),
                }
            }
        }
    }
    Ok(true)
}

/// A residual arc that decreases the distance, with its head and the number of untried residual arcs out of its tail.
#[derive(Clone, Copy)]
pub struct Nearer {
    pub left: usize,
    pub residual: ResidualArc,
    pub to: usize,
}

/// The first of the last `left` residual arcs out of a node that is open and decreases the distance by one. Arcs come
/// first, then reversed arcs.
fn arc_nearer(graph: &Graph, on: &[u64], marks: &Marks, node: usize, left: usize) -> Option<Nearer>
    requires sized { length on.now ≡ length graph.now.arcs.now }
    requires marks { length marks.now ≡ graph.now.nodes }
    requires node { node < graph.now.nodes }
    ensures before { IfSome result (λ found. found.left < left) }
    ensures within { IfSome result (λ found. found.to < graph.now.nodes) }
    ensures nearer { IfSome result
        (λ found. Nears graph.now.arcs.now on.now (far_in marks.now) found.residual node found.to) }
{
    let back = graph.adjacency(false).degree(node);
    if left > back {
        if let Some(found) = arc_over(graph, on, marks, node, left - back, true) {
            return Some(Nearer {
                left: found.left + back,
                residual: found.residual,
                to: found.to,
            });
        }
    }
    arc_over(graph, on, marks, node, left.min(back), false)
}

/// The first of the last `left` residual arcs out of a node, along arcs or against them, that is open and decreases the
/// distance by one.
#[inline]
fn arc_over(
    graph: &Graph,
    on: &[u64],
    marks: &Marks,
    node: usize,
    left: usize,
    forward: bool,
) -> Option<Nearer>
    requires sized { length on.now ≡ length graph.now.arcs.now }
    requires marks { length marks.now ≡ graph.now.nodes }
    requires node { node < graph.now.nodes }
    ensures before { IfSome result (λ found. found.left < left) }
    ensures within { IfSome result (λ found. found.to < graph.now.nodes) }
    ensures nearer { IfSome result
        (λ found. Nears graph.now.arcs.now on.now (far_in marks.now) found.residual node found.to) }
{
    let far = marks.far(node);
    let list = graph.adjacency(forward);
    let open = Residual {
        arcs: graph.arcs,
        on,
    };
    let end = list.starts[node + 1];
    let many = left.min(end - list.starts[node]);
    for at in end - many..end {
        let to = list.heads[at] as usize;
        if marks.is_nearer(to, far) {
            let residual = ResidualArc {
                arc: list.arcs[at],
                forward,
            };
            if open.lets_pass(residual) {
                return Some(Nearer {
                    left: end - at - 1,
                    residual,
                    to,
                });
            }
        }
    }
    None
}

/// After an augmentation, the arcs of its path become untried again.
fn put_back(graph: &Graph, path: &[ResidualArc], left: &mut [usize])
    requires left { length left.old ≡ graph.now.nodes }
    requires steps { All (λ s. s.arc < length graph.now.arcs.now) path.now }
{
    for residual in path {
        let node = tail(graph.arcs, *residual);
        let untried = &mut left[node];
        *untried = untried.saturating_add(1);
    }
}
