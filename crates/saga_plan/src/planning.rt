//! The planner.
ghost use Rattle.std.specs.Prelude.{IfOk};
ghost use Rattle.saga_case.specs.Free.{IsFree};
ghost use Rattle.saga_case.specs.Right.{IsRight, Settles};
ghost use Rattle.saga_case.specs.Terms.{terms_of};
ghost use Rattle.saga_plan.specs.Planned.{IsSmallest, KeepsNothing, IsMadeIn, HasFewRounds, HasRoundsWithinCost};

use crate::plans::plan_of;
use saga_case::{Answer, Case, Chain, leaves_all_out_for_free};
use saga_closure::{Solution, solve};
use std::alloc::{AllocError, Global};

/// Returns a correct answer to a case: a plan if some set of steps is allowed, and otherwise a
/// chain.
///
/// The kept set of the plan is the smallest minimum-cost set: every minimum-cost set contains it.
/// So if all costs are 0 and no compensation failed permanently, the plan keeps no step: pure
/// backward recovery. The contract does not say which of several correct flows or chains the answer
/// has. The only error is lack of memory.
pub fn plan(alloc: Global, case: &Case) -> Result<Answer, AllocError>
    ensures right { IfOk result (IsRight (terms_of case.now)) }
    ensures settles { IfOk result (Settles (terms_of case.now)) }
    ensures smallest { IfOk result (IsSmallest (terms_of case.now)) }
    ensures backward { IsFree case.now → IfOk result KeepsNothing }
{
    let (answer, _rounds) = plan_counted(alloc, case)?;
    Ok(answer)
}

/// Returns the answer of [`plan`], with the number of rounds by which the planner reached its flow
/// in the network of the case. A chain takes no round.
///
/// A plan for `n` steps with `m` needs takes at most `(n + 2) * (2 * n + m)` rounds. It also takes
/// at most as many rounds as its cost.
pub fn plan_counted(alloc: Global, case: &Case) -> Result<(Answer, u64), AllocError>
    ensures right { IfOk result (λ r. IsRight (terms_of case.now) r.0) }
    ensures settles { IfOk result (λ r. Settles (terms_of case.now) r.0) }
    ensures smallest { IfOk result (λ r. IsSmallest (terms_of case.now) r.0) }
    ensures backward { IsFree case.now → IfOk result (λ r. KeepsNothing r.0) }
    ensures rounds { IfOk result (λ r. IsMadeIn (terms_of case.now) r.0 r.1) }
    ensures by_size { IfOk result (λ r. HasFewRounds (terms_of case.now) r.0 r.1) }
    ensures by_cost { IfOk result (λ r. HasRoundsWithinCost r.0 r.1) }
{
    leaves_all_out_for_free(case);
    let steps = case.definition().steps();
    match solve(alloc, case)? {
        Solution::Blocked(chain) => Ok((Answer::Blocked(Chain::new(chain)), 0)),
        Solution::Flow(flow) => {
            let rounds = flow.rounds;
            let plan = plan_of(alloc, steps, flow)?;
            Ok((Answer::Plan(plan), rounds))
        }
    }
}
