//! The costs to keep and to drop a step.
ghost use Rattle.std.specs.Prelude.{◌≡◌};
ghost use Rattle.saga_def.specs.Rules.{HasSmallPrices, IsSmall};
ghost use Rattle.saga_case.specs.Prices.{plus, stand_of, leave_of, free_skip as free_skip_of, IsBounded};

use crate::states::StepState;
use saga_def::{MAX_PRICE, Price, Step};

/// The maximum cost to keep or to drop a step, if it is a number.
pub const MAX_STEP_PRICE: u64 = 2 * MAX_PRICE;

fn sum(a: Price, b: Price) -> Price
    requires left { IsSmall a }
    requires right { IsSmall b }
    ensures exact { result ≡ plus a b }
    ensures bounded { IsBounded result }
{
    match (a, b) {
        (Price::Of(a), Price::Of(b)) => Price::Of(a + b),
        _ => Price::Never,
    }
}

/// The cost to drop a step that has no effect: 0, unless the step must not be skipped.
fn free_skip(skip: Price) -> Price
    ensures exact { result ≡ free_skip_of skip }
    ensures bounded { IsBounded result }
{
    match skip {
        Price::Of(_) => Price::Of(0),
        Price::Never => Price::Never,
    }
}

pub fn stand_price_of(aborted: bool, state: StepState, step: &Step) -> Price
    requires { HasSmallPrices step.now }
    ensures exact { result ≡ stand_of aborted state step.now }
    ensures bounded { IsBounded result }
{
    match state {
        StepState::Waiting if aborted => Price::Never,
        StepState::Waiting => sum(step.run, step.keep),
        StepState::Committed | StepState::Fixed => step.keep,
        StepState::Void => Price::Of(0),
        _ => Price::Never,
    }
}

pub fn leave_price_of(state: StepState, step: &Step) -> Price
    requires { HasSmallPrices step.now }
    ensures exact { result ≡ leave_of state step.now }
    ensures bounded { IsBounded result }
{
    match state {
        StepState::Waiting | StepState::Failed | StepState::Undone => step.skip,
        StepState::Committed => sum(step.undo, step.skip),
        StepState::Void => free_skip(step.skip),
        _ => Price::Never,
    }
}
