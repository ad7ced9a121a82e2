//! The JSON value of a case.
ghost use Rattle.std.specs.Prelude.{◌≡◌, IfOk, map};
ghost use Rattle.serde_json.specs.Data.{array, string};
ghost use Rattle.serde_json.specs.View.{view};
ghost use Rattle.saga_case.specs.States.{word_of};
ghost use Rattle.saga_case.specs.Situation.{IsAtRest};
ghost use Rattle.saga_json.specs.Trees.{items_from};
ghost use Rattle.saga_cert.specs.Cases.{case_form};

use saga_case::{Case, StepState};
use serde_json::{Value, json};
use std::alloc::{AllocError, Global};

/// The list of the words of the states.
fn states_value(alloc: Global, states: &[StepState]) -> Result<Value, AllocError>
    ensures { IfOk result
        (λ v. view v ≡ array (items_from (map (λ s. string (word_of s)) states.now))) }
{
    let mut list = Vec::new(alloc);
    for state in states {
        list.push(Value::try_from_str(alloc, state.word())?)?;
    }
    Ok(Value::Array(list))
}

/// The value of a case.
pub fn value_of_case(alloc: Global, case: &Case) -> Result<Value, AllocError>
    ensures form { IfOk result (λ v. view v ≡ case_form case.now) }
    ensures at_rest { IsAtRest case.now }
{
    let states = states_value(alloc, case.states())?;
    if case.is_aborted() {
        json!(in alloc; { "aborted": true, "states": states })
    } else {
        json!(in alloc; { "states": states })
    }
}
