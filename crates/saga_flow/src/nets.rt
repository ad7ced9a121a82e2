//! Networks: nodes, arcs and capacities.
ghost use Rattle.std.specs.Prelude.{◌≡◌, ◌^◌, ◌<◌, ◌↔◌, IsTrue};
ghost use Rattle.saga_flow.specs.Network.{bound_sum, ends_within};

use std::marker::Model;

/// The capacity of an arc: a whole number of units, or unbounded.
#[derive(Clone, Copy, Debug, PartialEq, Eq)]
pub enum Cap {
    /// At most this number of units.
    Of(u64),
    /// Any number of units.
    Unbounded,
}

/// An arc leads from one node to another, and carries units in this direction up to its capacity.
///
/// Nodes are numbers from 0. Node 0 is the source, node 1 the sink. An arc may be a loop, and several arcs may join the
/// same two nodes.
#[derive(Clone, Copy, Debug, PartialEq, Eq)]
pub struct Arc {
    /// The tail of the arc.
    pub from: u32,
    /// The head of the arc.
    pub to: u32,
    /// The capacity of the arc.
    pub cap: Cap,
}

/// A network of at least two nodes. Its arcs join its nodes and keep their order.
#[derive(Debug, Drop)]
pub struct Net {
    nodes: u32,
    arcs: Vec<Arc>,
}

impl Model for Net {
    ghost use Rattle.saga_flow.specs.Network.{Network, IsNetwork};

    ghost Value = { Network };

    ghost view = { λ n. record { nodes = n.nodes; arcs = n.arcs.items } };

    ghost invariant = { λ n. IsNetwork (record { nodes = n.nodes; arcs = n.arcs.items }) };
}

impl Net {
    ghost use Rattle.saga_flow.specs.Network.{IsNetwork, bound_sum, ends_within};

    /// The network with `nodes` nodes, numbered from 0, and these arcs in order.
    ///
    /// The caller ensures that there are a source and a sink, that each arc joins two nodes, and that the sum of the
    /// bounded capacities is less than 2^63. Takes no memory.
    pub fn new(nodes: u32, arcs: Vec<Arc>) -> Self
        requires two { 1 < nodes }
        requires ends { IsTrue (ends_within nodes arcs.items) }
        requires bounded { bound_sum arcs.items < 2 ^ 63 }
        ensures { result ≡ record { nodes = nodes; arcs = arcs.items } }
    {
        Net { nodes, arcs }
    }

    /// Whether `new` may be called with this number of nodes and these arcs.
    pub fn accepts(nodes: u32, arcs: &[Arc]) -> bool
        ensures { IsTrue result ↔ IsNetwork (record { nodes = nodes; arcs = arcs.now }) }
    {
        1 < nodes && all_join(nodes, arcs) && has_small_sum(arcs)
    }

    /// The number of nodes of the network.
    pub fn nodes(&self) -> u32
        ensures value { result ≡ self.now.nodes }
        ensures sound { IsNetwork self.now }
    {
        self.nodes
    }

    /// The arcs, in the order of the input.
    pub fn arcs(&self) -> &[Arc]
        ensures value { result.now ≡ self.now.arcs }
        ensures sound { IsNetwork self.now }
    {
        self.arcs.as_slice()
    }
}

/// Whether both ends of each arc are nodes.
fn all_join(nodes: u32, arcs: &[Arc]) -> bool
    ensures { result ≡ ends_within nodes arcs.now }
{
    arcs.iter().all(|arc| arc.from < nodes && arc.to < nodes)
}

/// Whether the sum of the bounded capacities is less than 2^63.
fn has_small_sum(arcs: &[Arc]) -> bool
    ensures { IsTrue result ↔ (bound_sum arcs.now < 2 ^ 63) }
{
    let mut room = (1u64 << 63) - 1;
    for arc in arcs {
        match arc.cap {
            Cap::Of(most) if most > room => return false,
            Cap::Of(most) => room -= most,
            Cap::Unbounded => {}
        }
    }
    true
}
