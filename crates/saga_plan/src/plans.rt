//! The plan of a maximum flow.
ghost use Rattle.std.specs.Prelude.{◌≡◌, ◌≤◌, ◌+◌, length, IfOk};
ghost use Rattle.saga_plan.specs.Making.{IsPlanOf};

use saga_case::{Amounts, Marks, Plan};
use saga_closure::ClosureFlow;
use std::alloc::{AllocError, Global};

/// Makes the plan that keeps the reached steps. Its certificate is the flow in three groups: from
/// the source, to the sink, and along the needs.
pub fn plan_of(alloc: Global, steps: usize, flow: ClosureFlow) -> Result<Plan, AllocError>
    requires { steps + steps ≤ length flow.on.items }
    ensures { IfOk result (IsPlanOf steps flow) }
{
    let ClosureFlow {
        value,
        on,
        reached,
        ..
    } = flow;
    let (leave, rest) = on.as_slice().split_at(steps);
    let (stand, links) = rest.split_at(steps);
    Ok(Plan {
        kept: Marks::new(reached),
        cost: value,
        leave: Amounts::new(alloc, leave)?,
        stand: Amounts::new(alloc, stand)?,
        links: Amounts::new(alloc, links)?,
    })
}
