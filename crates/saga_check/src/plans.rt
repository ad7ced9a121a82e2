//! The tests of a plan, one each.
ghost use Rattle.std.specs.Prelude.{◌≡◌, ◌↔◌, ◌<◌, ◌≤◌, ◌+◌, IsTrue, length, slice_index};
ghost use Rattle.saga_def.specs.Order.{IsClosed, member};
ghost use Rattle.saga_case.specs.Terms.{terms_of};
ghost use Rattle.saga_case.specs.Flow.{FitsIn, IsWithin, IsConserved, into_step, out_of_step, value_of};
ghost use Rattle.saga_case.specs.Right.{HasShape, flow_of};

use crate::flows::{sum_at, total};
use saga_case::{Case, Plan};
use saga_def::Price;

/// Whether each list of the plan has the required length.
pub fn has_shape(case: &Case, plan: &Plan) -> bool
    ensures { IsTrue result ↔ HasShape (terms_of case.now) plan.now }
{
    let steps = case.definition().steps();
    let needs = case.definition().needs();
    plan.kept.as_slice().len() == steps
        && plan.leave.len() == steps
        && plan.stand.len() == steps
        && plan.links.len() == needs
}

/// Whether a set is dependency-closed.
pub fn is_closed(case: &Case, kept: &[bool]) -> bool
    requires { length kept.now ≡ length case.now.definition.steps }
    ensures { IsTrue result ↔ IsClosed case.now.definition.needs (member kept.now) }
{
    let needs = case.definition().all_needs();
    for need in needs {
        if kept[need.step as usize] && !kept[need.on as usize] {
            return false;
        }
    }
    true
}

fn fits_in(amount: u64, price: Price) -> bool
    ensures { IsTrue result ↔ FitsIn amount price }
{
    match price {
        Price::Of(price) => amount <= price,
        Price::Never => true,
    }
}

/// Whether no arc of the source or the sink exceeds its capacity.
pub fn is_within(case: &Case, plan: &Plan) -> bool
    requires { HasShape (terms_of case.now) plan.now }
    ensures { IsTrue result ↔ IsWithin (terms_of case.now) (flow_of plan.now) }
{
    let count = case.definition().steps() as u16;
    for s in 0..count {
        if !fits_in(plan.leave.get(s as usize), case.leave_price(s)) {
            return false;
        }
        if !fits_in(plan.stand.get(s as usize), case.stand_price(s)) {
            return false;
        }
    }
    true
}

/// Whether at a step the inflow equals the outflow.
fn is_conserved_at(case: &Case, plan: &Plan, s: u16) -> bool
    requires shape { HasShape (terms_of case.now) plan.now }
    requires step { s < length case.now.definition.steps }
    ensures { IsTrue result
        ↔ (slice_index plan.now.leave s + into_step (terms_of case.now) (flow_of plan.now) s
        ≡ slice_index plan.now.stand s + out_of_step (terms_of case.now) (flow_of plan.now) s) }
{
    let definition = case.definition();
    let into = sum_at(&plan.links, definition.places_on(s));
    let out = sum_at(&plan.links, definition.places_of(s));
    let leave = plan.leave.get(s as usize) as u128;
    let stand = plan.stand.get(s as usize) as u128;
    leave + into == stand + out
}

/// Whether at each step the inflow equals the outflow. Takes no memory, and time linear in the steps and needs.
pub fn is_conserved(case: &Case, plan: &Plan) -> bool
    requires { HasShape (terms_of case.now) plan.now }
    ensures { IsTrue result ↔ IsConserved (terms_of case.now) (flow_of plan.now) }
{
    let count = case.definition().steps() as u16;
    for s in 0..count {
        if !is_conserved_at(case, plan, s) {
            return false;
        }
    }
    true
}

/// Whether the flow from the source equals the plan's cost.
pub fn has_value(case: &Case, plan: &Plan) -> bool
    requires { HasShape (terms_of case.now) plan.now }
    ensures { IsTrue result ↔ (value_of (terms_of case.now) (flow_of plan.now) ≡ plan.now.cost) }
{
    total(&plan.leave) == plan.cost as u128
}
