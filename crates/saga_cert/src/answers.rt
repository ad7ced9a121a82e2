//! Reads an answer from a JSON value.
ghost use Rattle.std.specs.Prelude.{◌≡◌};
ghost use Rattle.serde_json.specs.View.{view};
ghost use Rattle.saga_json.specs.Reads.{Gives};
ghost use Rattle.saga_cert.specs.Answers.{plan_parts_of, plan_of, chain_of, answer_of};

use crate::kept::kept_of;
use saga_case::{Amounts, Answer, Chain, Marks, Plan};
use saga_json::{JsonFault, check_keys, text_at, u16s_at, u64_at, u64s_at};
use serde_json::Value;
use std::alloc::Global;

/// The values of a plan.
#[tactic(auto, unfolding(crate::specs::Answers::plan_parts_of))]
fn plan_parts_of(alloc: Global, value: &Value) -> Result<Plan, JsonFault>
    ensures { Gives (λ p. p) result (plan_parts_of (view value.now)) }
{
    let cost = u64_at(value, "cost")?;
    let numbers = u64s_at(alloc, value, "kept")?;
    let leave = u64s_at(alloc, value, "leave")?;
    let stand = u64s_at(alloc, value, "stand")?;
    let links = u64s_at(alloc, value, "links")?;
    let kept = kept_of(alloc, &numbers, stand.len())?;
    Ok(Plan {
        kept: Marks::new(kept),
        cost,
        leave: Amounts::new(alloc, &leave)?,
        stand: Amounts::new(alloc, &stand)?,
        links: Amounts::new(alloc, &links)?,
    })
}

#[tactic(auto, unfolding(crate::specs::Answers::plan_of))]
fn plan_of(alloc: Global, value: &Value) -> Result<Plan, JsonFault>
    ensures { Gives (λ p. p) result (plan_of (view value.now)) }
{
    check_keys(
        value,
        &["kind", "cost", "kept", "leave", "stand", "links"],
        &[],
    )?;
    plan_parts_of(alloc, value)
}

#[tactic(auto, unfolding(crate::specs::Answers::chain_of))]
fn chain_of(alloc: Global, value: &Value) -> Result<Chain, JsonFault>
    ensures { Gives (λ c. c) result (chain_of (view value.now)) }
{
    check_keys(value, &["kind", "chain"], &[])?;
    Ok(Chain::new(u16s_at(alloc, value, "chain")?))
}

/// The answer in a value.
pub fn answer_of_value(alloc: Global, value: &Value) -> Result<Answer, JsonFault>
    ensures { Gives (λ a. a) result (answer_of (view value.now)) }
{
    match text_at(value, "kind") {
        Some("plan") => Ok(Answer::Plan(plan_of(alloc, value)?)),
        Some("blocked") => Ok(Answer::Blocked(chain_of(alloc, value)?)),
        _ => Err(JsonFault::Kind),
    }
}
