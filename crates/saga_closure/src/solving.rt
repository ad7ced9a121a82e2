//! The chain or the maximum flow of a case.
ghost use Rattle.std.specs.Prelude.{IfOk};
ghost use Rattle.saga_case.specs.Terms.{terms_of};
ghost use Rattle.saga_closure.specs.Largest.{IsSolution};

use crate::capacities::capacities;
use crate::chains::unbounded_chain;
use crate::flows::largest;
use crate::nets::ClosureNet;
use crate::solutions::Solution;
use saga_case::Case;
use std::alloc::{AllocError, Global};

/// Returns a maximum flow of a case's network. If a path of unbounded arcs leads from its source to its sink, no flow
/// is maximum, and the result is a chain.
///
/// The network has an arc from the source to each step, whose capacity is the cost to drop the step; one from each step
/// to the sink, whose capacity is the cost to keep the step; and for each need an unbounded arc from the step to the
/// step that it needs. The contract does not say which of several flows or chains the result is. The only error is lack
/// of memory.
pub fn solve(alloc: Global, case: &Case) -> Result<Solution, AllocError>
    ensures { IfOk result (IsSolution (terms_of case.now)) }
{
    let caps = capacities(alloc, case)?;
    let net = ClosureNet {
        definition: case.definition(),
        caps: caps.as_slice(),
    };
    if let Some(chain) = unbounded_chain(alloc, &net)? {
        return Ok(Solution::Blocked(chain));
    }
    Ok(Solution::Flow(largest(alloc, &net)?))
}
