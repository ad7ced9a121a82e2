//! The JSON value of an answer.
ghost use Rattle.std.specs.Prelude.{◌≡◌, ◌<◌, All, IfOk, Ok};
ghost use Rattle.serde_json.specs.View.{view};
ghost use Rattle.saga_cert.specs.Kept.{numbers_from};
ghost use Rattle.saga_cert.specs.Answers.{numbers, plan_form, chain_form, answer_form, answer_of, IsPaired};

use saga_case::{Amounts, Answer, Plan};
use serde_json::{Value, json};
use std::alloc::{AllocError, Global};

/// The list of amounts.
fn amounts_value(alloc: Global, amounts: &Amounts) -> Result<Value, AllocError>
    ensures { IfOk result (λ v. view v ≡ numbers amounts.now) }
{
    let mut list = Vec::new(alloc);
    for place in 0..amounts.len() {
        list.push(Value::from(amounts.get(place)))?;
    }
    Ok(Value::Array(list))
}

/// The list of the steps of a chain.
fn steps_value(alloc: Global, steps: &[u16]) -> Result<Value, AllocError>
    ensures { IfOk result (λ v. view v ≡ numbers steps.now) }
{
    let mut list = Vec::new(alloc);
    for step in steps {
        list.push(Value::from(*step as u64))?;
    }
    Ok(Value::Array(list))
}

/// The list of the indices at which the truth value is true.
fn numbers_value(alloc: Global, marks: &[bool]) -> Result<Value, AllocError>
    ensures { IfOk result (λ v. view v ≡ numbers (numbers_from 0 marks.now)) }
{
    let mut list = Vec::new(alloc);
    for (step, mark) in marks.iter().enumerate() {
        if *mark {
            list.push(Value::from(step as u64))?;
        }
    }
    Ok(Value::Array(list))
}

fn plan_value(alloc: Global, plan: &Plan) -> Result<Value, AllocError>
    ensures { IfOk result (λ v. view v ≡ plan_form plan.now) }
{
    let kept = numbers_value(alloc, plan.kept.as_slice())?;
    let leave = amounts_value(alloc, &plan.leave)?;
    let links = amounts_value(alloc, &plan.links)?;
    let stand = amounts_value(alloc, &plan.stand)?;
    json!(in alloc; {
        "cost": plan.cost,
        "kept": kept,
        "kind": "plan",
        "leave": leave,
        "links": links,
        "stand": stand
    })
}

fn chain_value(alloc: Global, chain: &[u16]) -> Result<Value, AllocError>
    ensures form { IfOk result (λ v. view v ≡ chain_form chain.now) }
    ensures small { All (λ step. step < 65536) chain.now }
{
    let steps = steps_value(alloc, chain)?;
    json!(in alloc; { "chain": steps, "kind": "blocked" })
}

/// The value of an answer.
pub fn value_of_answer(alloc: Global, answer: &Answer) -> Result<Value, AllocError>
    ensures form { IfOk result (λ v. view v ≡ answer_form answer.now) }
    ensures read_back { IfOk result
        (λ v. IsPaired answer.now → answer_of (view v) ≡ Ok answer.now) }
{
    match answer {
        Answer::Plan(plan) => plan_value(alloc, plan),
        Answer::Blocked(chain) => chain_value(alloc, chain.as_slice()),
    }
}
