//! Trials of the calls on networks, with networks whose maximum flows are known.
use crate::trial::Trial;
use anyhow::{Result, ensure};
use saga_flow::{Arc, Cap, Net, largest, largest_counted, reach, unbounded_path};
use std::alloc::{AllocError, Global};

/// A call on a network: whether it has an unbounded path, its maximum flow, optionally with the number of rounds, and
/// what its residual network reaches.
#[derive(Clone, Copy)]
pub enum Flow {
    Path,
    Largest,
    Counted,
    Reach,
}

/// An arc: from, to and capacity.
pub type Link = (u32, u32, u64);

/// The unbounded capacity.
pub const U: u64 = u64::MAX;

/// A network with its maximum flow and the maximum number of rounds. `on` has the amount on each arc if only one
/// maximum flow exists. `reached` has the nodes that its residual network reaches from the source.
struct Known {
    nodes: u32,
    links: &'static [Link],
    value: u64,
    rounds: u64,
    on: &'static [u64],
    reached: &'static [bool],
}

/// The networks. The third is from a textbook (Cormen, Leiserson, Rivest, Stein). The fifth has loops, parallel arcs,
/// and arcs into the source and out of the sink. The last has an unbounded path, so it has no maximum flow.
const KNOWN: &[Known] = &[
    Known {
        nodes: 4,
        links: &[(0, 2, 1), (0, 3, 0), (2, 1, 4), (3, 1, U), (3, 2, U)],
        value: 1,
        rounds: 1,
        on: &[1, 0, 1, 0, 0],
        reached: &[true, false, false, false],
    },
    Known {
        nodes: 4,
        links: &[(0, 2, 1), (0, 3, 1), (2, 1, 1), (2, 3, 1), (3, 1, 1)],
        value: 2,
        rounds: 2,
        on: &[1, 1, 1, 0, 1],
        reached: &[true, false, false, false],
    },
    Known {
        nodes: 6,
        links: &[
            (0, 2, 16),
            (0, 3, 13),
            (3, 2, 4),
            (2, 4, 12),
            (4, 3, 9),
            (3, 5, 14),
            (5, 4, 7),
            (4, 1, 20),
            (5, 1, 4),
        ],
        value: 23,
        rounds: 23,
        on: &[],
        reached: &[true, false, true, true, false, true],
    },
    Known {
        nodes: 2,
        links: &[],
        value: 0,
        rounds: 0,
        on: &[],
        reached: &[true, false],
    },
    Known {
        nodes: 2,
        links: &[(0, 0, 9), (0, 1, 2), (0, 1, 3), (1, 0, 4), (1, 1, 7)],
        value: 5,
        rounds: 2,
        on: &[],
        reached: &[true, false],
    },
    Known {
        nodes: 4,
        links: &[(0, 2, 1), (0, 3, U), (2, 1, 4), (3, 1, U), (3, 2, U)],
        value: U,
        rounds: 0,
        on: &[],
        reached: &[],
    },
];

/// The network with these arcs.
pub fn net(alloc: Global, nodes: u32, links: &[Link]) -> Result<Net> {
    let mut arcs = Vec::new(alloc);
    for (from, to, cap) in links {
        arcs.push(Arc {
            from: *from,
            to: *to,
            cap: if *cap == U {
                Cap::Unbounded
            } else {
                Cap::Of(*cap)
            },
        })?;
    }
    ensure!(Net::accepts(nodes, arcs.as_slice()), "no net");
    Ok(Net::new(nodes, arcs))
}

/// Makes a trial of a call on each network, and repeats the call if memory was refused.
pub fn run(trial: &mut Trial<'_>, call: Flow) -> Result<()> {
    let alloc = trial.alloc();
    for known in KNOWN {
        let net = net(alloc, known.nodes, known.links)?;
        trial.each();
        let mut right = is_right(alloc, &net, known, call);
        trial.ample();
        if right.is_err() {
            trial.refused = true;
            right = is_right(alloc, &net, known, call);
        }
        ensure!(right?, "another result");
    }
    Ok(())
}

/// Whether the call on a network returns the known result.
fn is_right(alloc: Global, net: &Net, known: &Known, call: Flow) -> Result<bool, AllocError> {
    if let Some(nodes) = unbounded_path(alloc, net)? {
        return Ok(known.value == U && nodes.as_slice() == [0, 3, 1].as_slice());
    }
    Ok(match call {
        Flow::Path => known.value != U,
        Flow::Largest => largest(alloc, net)?.value == known.value,
        Flow::Counted => {
            let (flow, rounds) = largest_counted(alloc, net)?;
            let same = known.on.len() == 0 || flow.on.as_slice() == known.on;
            flow.value == known.value && rounds <= known.rounds && same
        }
        Flow::Reach => {
            let flow = largest(alloc, net)?;
            flow.on.len() == net.arcs().len()
                && reach(alloc, net, &flow)?.as_slice() == known.reached
        }
    })
}
