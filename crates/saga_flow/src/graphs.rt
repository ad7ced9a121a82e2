//! The graph of a network for a search: the residual arcs out of each node, along arcs and against them.
ghost use Rattle.std.specs.Prelude.{◌≡◌, ◌+◌, ◌<◌, ◌^◌, IfOk, length, true, false};
ghost use Rattle.saga_flow.specs.Network.{IsNetwork};
ghost use Rattle.saga_flow.specs.Adjacency.{IsAdjacencyList};

use crate::adjacency::{AdjacencyList, list_of};
use crate::nets::{Arc, Net};
use std::alloc::{AllocError, Global};

/// The nodes and arcs of a network, with the arcs that leave each node and the arcs that enter it.
#[derive(Drop)]
pub struct Graph<'a> {
    pub nodes: usize,
    pub arcs: &'a [Arc],
    out: AdjacencyList,
    into: AdjacencyList,
    degrees: Vec<usize>,
    ghost small: { nodes < 2 ^ 32 },
    ghost net: { IsNetwork (record { nodes = nodes; arcs = arcs.now }) },
    ghost along: { IsAdjacencyList nodes arcs.now true out.starts.items out.arcs.items out.heads.items },
    ghost back: { IsAdjacencyList nodes arcs.now false into.starts.items into.arcs.items into.heads.items },
    ghost counted: { length degrees.items ≡ nodes },
}

/// Builds the graph of a network.
pub fn graph_of(alloc: Global, net: &Net) -> Result<Graph<'_>, AllocError>
    ensures nodes { IfOk result (λ g. g.nodes ≡ net.now.nodes) }
    ensures arcs { IfOk result (λ g. g.arcs.now ≡ net.now.arcs) }
{
    let nodes = net.nodes() as usize;
    let arcs = net.arcs();
    let out = list_of(alloc, nodes, arcs, true)?;
    let into = list_of(alloc, nodes, arcs, false)?;
    let degrees = degrees_of(alloc, nodes, &out, &into)?;
    Ok(Graph {
        nodes,
        arcs,
        out,
        into,
        degrees,
    })
}

/// The number of residual arcs that leave each node.
fn degrees_of(
    alloc: Global,
    nodes: usize,
    out: &AdjacencyList,
    into: &AdjacencyList,
) -> Result<Vec<usize>, AllocError>
    requires out { length out.now.starts.items ≡ nodes + 1 }
    requires into { length into.now.starts.items ≡ nodes + 1 }
    ensures { IfOk result (λ degrees. length degrees.items ≡ nodes) }
{
    let mut degrees = Vec::with_capacity(alloc, nodes)?;
    for node in 0..nodes {
        degrees.push(out.degree(node).saturating_add(into.degree(node)))?;
    }
    Ok(degrees)
}

impl Graph<'_> {
    /// The residual arcs along arcs, or those against arcs, by their tails.
    #[inline]
    pub fn adjacency(&self, forward: bool) -> &AdjacencyList
        ensures { IsAdjacencyList self.now.nodes self.now.arcs.now forward result.now.starts.items
            result.now.arcs.items result.now.heads.items }
    {
        if forward { &self.out } else { &self.into }
    }

    /// The number of residual arcs that leave each node.
    pub fn degrees(&self) -> &[usize]
        ensures { length result.now ≡ self.now.nodes }
    {
        self.degrees.as_slice()
    }
}
