//! A breadth-first search: which nodes are reached over the residual arcs that a gate lets pass, the minimum number of
//! these arcs, and the last arc.
ghost use Rattle.std.specs.Prelude.{◌≡◌, ◌<◌, ◌≤◌, ◌+◌, ℕ, IfOk, IfSome, OnOk, Some, length, false, true};
ghost use Rattle.saga_flow.specs.Residual.{Leads};
ghost use Rattle.saga_flow.specs.Marks.{no_depth};
ghost use Rattle.saga_flow.specs.Search.{IsSearchTree, IsSearching, IsVisiting, IsMarked, IsSeen, HasGoal};

use crate::gates::Gate;
use crate::graphs::Graph;
use crate::marks::Marks;
use crate::residual_arcs::ResidualArc;
use std::alloc::{AllocError, Global};

/// The result of a search: the marks of the nodes, and the marked nodes in the order of discovery.
#[derive(Drop)]
pub struct Found {
    pub marks: Marks,
    pub order: Vec<usize>,
}

/// The current node, its index in the order, and the depth of the nodes that are found from it.
#[derive(Clone, Copy)]
pub struct Place {
    pub start: usize,
    pub next: usize,
    pub node: usize,
    pub depth: u32,
}

/// Searches from `start`, level by level, until all reached nodes have a mark, or until `goal` has one.
pub fn search<G: Gate>(
    alloc: Global,
    graph: &Graph,
    gate: &G,
    start: usize,
    goal: Option<usize>,
) -> Result<Marks, AllocError>
    requires asked { length graph.now.arcs.now ≤ G.count gate.now }
    requires start { start < graph.now.nodes }
    requires goal { IfSome goal (λ node. node < graph.now.nodes) }
    ensures { IfOk result
        (λ marks. IsSearchTree graph.now.nodes graph.now.arcs.now
        (G.passes gate.now) start goal marks) }
{
    let mut found = Found {
        marks: Marks::none(alloc, graph.nodes)?,
        order: Vec::with_capacity(alloc, graph.nodes)?,
    };
    found.marks.begin(start);
    found.order.push(start)?;
    let mut next = 0;
    while next < found.order.len() && !is_found(&found.marks, goal) {
        visit(graph, gate, start, next, &mut found)?;
        next += 1;
    }
    Ok(found.marks)
}

/// Whether the goal has a mark.
fn is_found(marks: &Marks, goal: Option<usize>) -> bool
    requires { IfSome goal (λ node. node < length marks.now) }
    ensures { result ≡ true → HasGoal goal marks.now }
{
    match goal {
        None => false,
        Some(node) => marks.is_marked(node),
    }
}

/// Marks a node as found by a residual arc.
fn add_mark(found: &mut Found, node: usize, depth: u32, by: ResidualArc) -> Result<(), AllocError>
    requires node { node < length found.old.marks }
    requires below { 0 < depth }
    requires depth { depth < no_depth }
    ensures { OnOk result
        (IsMarked found.old found.new node (record { depth = depth; by = Some by })) }
{
    found.marks.set(node, depth, by);
    found.order.push(node)?;
    Ok(())
}

/// Marks the nodes to which the residual arcs from a node lead.
fn visit<G: Gate>(
    graph: &Graph,
    gate: &G,
    start: usize,
    next: usize,
    found: &mut Found,
) -> Result<(), AllocError>
    requires asked { length graph.now.arcs.now ≤ G.count gate.now }
    requires next { next < length found.old.order.items }
    requires search { IsSearching graph.now.nodes graph.now.arcs.now
        (G.passes gate.now) start found.old next }
    ensures { OnOk result
        (IsSearching graph.now.nodes graph.now.arcs.now (G.passes gate.now) start found.new
        (next + 1)) }
{
    let node = found.order[next];
    let place = Place {
        start,
        next,
        node,
        depth: found.marks.depth(node) + 1,
    };
    visit_arcs(graph, gate, place, false, found)?;
    visit_arcs(graph, gate, place, true, found)?;
    Ok(())
}

/// Marks the nodes to which the residual arcs from a node lead along arcs, or against them.
#[inline]
fn visit_arcs<G: Gate>(
    graph: &Graph,
    gate: &G,
    place: Place,
    forward: bool,
    found: &mut Found,
) -> Result<(), AllocError>
    requires asked { length graph.now.arcs.now ≤ G.count gate.now }
    requires visit { IsVisiting graph.now.nodes graph.now.arcs.now
        (G.passes gate.now) place found.old }
    ensures visit { OnOk result
        (IsVisiting graph.now.nodes graph.now.arcs.now (G.passes gate.now) place found.new) }
    ensures seen { OnOk result
        ((s : ResidualArc) (v : ℕ) → s.forward ≡ forward → Leads graph.now.arcs.now s place.node v
        → G.passes gate.now s → IsSeen found.new.marks v place.depth) }
    ensures kept { OnOk result
        ((v : ℕ) → IsSeen found.old.marks v place.depth → IsSeen found.new.marks v place.depth) }
{
    let list = graph.adjacency(forward);
    let first = list.starts[place.node];
    let end = list.starts[place.node + 1];
    for at in first..end {
        let to = list.heads[at] as usize;
        if !found.marks.is_marked(to) {
            let residual = ResidualArc {
                arc: list.arcs[at],
                forward,
            };
            if gate.lets_pass(residual) {
                add_mark(found, to, place.depth, residual)?;
            }
        }
    }
    Ok(())
}
