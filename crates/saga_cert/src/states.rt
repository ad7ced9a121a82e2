//! Reads the states of a case from a JSON value.
ghost use Rattle.std.specs.Prelude.{◌≡◌, map, option_map};
ghost use Rattle.serde_json.specs.View.{view};
ghost use Rattle.saga_json.specs.Reads.{Gives, each};
ghost use Rattle.saga_cert.specs.Cases.{state_named, state_of, flag_in, case_parts_of, written_of};

use saga_case::StepState;
use saga_json::{JsonFault, check_keys, items_at};
use serde_json::Value;
use std::alloc::Global;

/// The contents of the text of a case.
#[derive(Drop)]
pub struct Written {
    pub states: Vec<StepState>,
    pub aborted: bool,
}

ghost use Rattle.saga_cert.specs.WrittenCases.{written};

/// The state of a word.
fn state_named(word: &str) -> Result<StepState, JsonFault>
    ensures { result ≡ state_named word.now }
{
    match word {
        "waiting" => Ok(StepState::Waiting),
        "running" => Ok(StepState::Running),
        "committed" => Ok(StepState::Committed),
        "void" => Ok(StepState::Void),
        "failed" => Ok(StepState::Failed),
        "undoing" => Ok(StepState::Undoing),
        "undone" => Ok(StepState::Undone),
        "fixed" => Ok(StepState::Fixed),
        _ => Err(JsonFault::BadType),
    }
}

fn state_of(value: &Value) -> Result<StepState, JsonFault>
    ensures { result ≡ state_of (view value.now) }
{
    match value {
        Value::String(word) => state_named(word.as_str()),
        _ => Err(JsonFault::BadType),
    }
}

/// Each item as a state.
fn states_of(alloc: Global, items: &[Value]) -> Result<Vec<StepState>, JsonFault>
    ensures { Gives (λ states. states.items) result (each state_of (map view items.now)) }
{
    let mut states = Vec::new(alloc);
    for item in items {
        states.push(state_of(item)?)?;
    }
    Ok(states)
}

/// A truth value. It is false if there is none.
fn flag_in(value: Option<&Value>) -> Result<bool, JsonFault>
    ensures { result ≡ flag_in (option_map (λ v. view v.now) value.entry) }
{
    match value {
        None => Ok(false),
        Some(value) => value.as_bool().ok_or(JsonFault::BadType),
    }
}

/// The values of a case.
#[tactic(auto, unfolding(crate::specs::Cases::case_parts_of))]
fn case_parts_of(alloc: Global, value: &Value) -> Result<Written, JsonFault>
    ensures { Gives written result (case_parts_of (view value.now)) }
{
    check_keys(value, &["states"], &["aborted"])?;
    let states = states_of(alloc, items_at(value, "states")?)?;
    let aborted = flag_in(value.get("aborted"))?;
    Ok(Written { states, aborted })
}

/// The contents of the value of a case.
pub fn written_of(alloc: Global, value: &Value) -> Result<Written, JsonFault>
    ensures { Gives written result (written_of (view value.now)) }
{
    if !value.is_object() {
        return Err(JsonFault::Kind);
    }
    case_parts_of(alloc, value)
}
