//! The reader of requests.
ghost use Rattle.std.specs.Prelude.{◌≡◌, ◌↔◌, ◌<◌, IsTrue, length, option_and_then, codes};
ghost use Rattle.serde_json.specs.View.{view};
ghost use Rattle.saga_json.specs.Fields.{text_at as text_in};
ghost use Rattle.saga_json.specs.Reads.{Gives};
ghost use Rattle.saga_drive.specs.Requests as spec;

use crate::attempts::Attempt;
use crate::fields::{attempt_of, bytes_of, has, most_of, u32_if, wanted_of};
use crate::openings::Wanted;
use crate::plain::plain_request;
use crate::verbs::Verb;
use saga_def::Text;
use saga_history::{Outcome, Phase};
use saga_json::{JsonFault, check_keys, text_at, u16_at, u32_at, value_at, value_of_text};
use serde_json::Value;
use std::alloc::Global;

/// The maximum number of bytes of a request, without its line feed.
pub const MAX_REQUEST: usize = 65536;

/// The request of a line of input.
#[derive(Debug, Drop)]
pub enum Request {
    /// Opens a saga with a definition. If `saga` is given, it must be the next number.
    Open {
        wanted: Wanted,
        saga: Option<u32>,
    },
    /// Starts the next task.
    Next,
    /// Starts the next tasks, at most this many.
    NextMany(u16),
    /// Starts the task of a step: its action or its compensation.
    TakeStep {
        saga: u32,
        step: u16,
    },
    /// Makes a plan for a saga.
    TakePlan(u32),
    /// Reports that the action or compensation of a step ended. If `attempt` is given, it must be the running attempt.
    Report {
        saga: u32,
        step: u16,
        attempt: Option<Attempt>,
        outcome: Outcome,
    },
    Abort(u32),
    /// Returns the state of a saga.
    Show(u32),
    /// Returns the tasks that were started and not yet reported.
    Busy,
    /// Returns the tasks that may start, of the sagas from this number on.
    Ready(u32),
    /// Returns the phases of the sagas from this number on, or only of the sagas with this phase.
    Sagas {
        from: u32,
        phase: Option<Phase>,
    },
    /// Returns the summary of the book.
    Status,
    /// Adds the definition in this text to the shelf.
    Define(Text),
}

/// Why a line is not a request.
#[derive(Clone, Copy, Debug, PartialEq, Eq)]
pub enum RequestFault {
    /// The line has more than [`MAX_REQUEST`] bytes.
    TooLong,
    /// The first fault of the form of the line, or lack of memory.
    Form(JsonFault),
}

/// Returns the outcome for its word.
fn outcome_named(word: &str) -> Result<Outcome, JsonFault>
    ensures { result ≡ spec.outcome_named word.now }
{
    match word {
        "ok" => Ok(Outcome::Done),
        "void" => Ok(Outcome::Void),
        "fail" => Ok(Outcome::Failed),
        _ => Err(JsonFault::BadType),
    }
}

fn outcome_of(value: &Value) -> Result<Outcome, JsonFault>
    ensures { result ≡ spec.outcome_of (view value.now) }
{
    match value {
        Value::String(word) => outcome_named(word.as_str()),
        _ => Err(JsonFault::BadType),
    }
}

/// Returns the request to start a task of a saga: the task of the given step, or the plan of the saga if no step is
/// given.
fn taken_of(saga: u32, value: &Value) -> Result<Request, JsonFault>
    ensures { result ≡ spec.taken_of saga (view value.now) }
{
    if !has(value, "step") {
        return Ok(Request::TakePlan(saga));
    }
    let step = u16_at(value, "step")?;
    Ok(Request::TakeStep { saga, step })
}

/// Returns the request for the next task, or for several if a number is given.
fn next_of(value: &Value) -> Result<Request, JsonFault>
    ensures { result ≡ spec.next_of (view value.now) }
{
    if has(value, "most") {
        return Ok(Request::NextMany(most_of(value)?));
    }
    Ok(Request::Next)
}

/// Returns the number of the first saga to list. The default is 0.
fn from_of(value: &Value) -> Result<u32, JsonFault>
    ensures { result ≡ spec.from_of (view value.now) }
{
    if value.get("from").is_none() {
        return Ok(0);
    }
    u32_at(value, "from")
}

/// Returns the phase for its word.
fn phase_named(word: &str) -> Result<Phase, JsonFault>
    ensures { result ≡ spec.phase_named word.now }
{
    match word {
        "going" => Ok(Phase::Going),
        "draining" => Ok(Phase::Draining),
        "planning" => Ok(Phase::Planning),
        "ended" => Ok(Phase::Ended),
        "stuck" => Ok(Phase::Stuck),
        _ => Err(JsonFault::BadType),
    }
}

fn phase_of(value: &Value) -> Result<Phase, JsonFault>
    ensures { result ≡ spec.phase_of (view value.now) }
{
    match value {
        Value::String(word) => phase_named(word.as_str()),
        _ => Err(JsonFault::BadType),
    }
}

/// Returns the request for a list of sagas from a number on: those with the given phase, or all if no phase is given.
fn sagas_of(from: u32, value: &Value) -> Result<Request, JsonFault>
    ensures { result ≡ spec.sagas_of from (view value.now) }
{
    if value.get("phase").is_none() {
        return Ok(Request::Sagas { from, phase: None });
    }
    let phase = phase_of(value_at(value, "phase")?)?;
    Ok(Request::Sagas {
        from,
        phase: Some(phase),
    })
}

/// Returns the request of a verb, with the other fields of its line.
fn fields_of(alloc: Global, verb: Verb, value: &Value) -> Result<Request, JsonFault>
    ensures { Gives (λ r. r) result (spec.fields_of verb (view value.now)) }
{
    match verb {
        Verb::Open => {
            let wanted = wanted_of(alloc, value)?;
            let saga = u32_if(value, "saga")?;
            Ok(Request::Open { wanted, saga })
        }
        Verb::Next => next_of(value),
        Verb::Take => taken_of(u32_at(value, "saga")?, value),
        Verb::Report => {
            let attempt = attempt_of(value)?;
            let saga = u32_at(value, "saga")?;
            let step = u16_at(value, "step")?;
            let outcome = outcome_of(value_at(value, "outcome")?)?;
            Ok(Request::Report {
                saga,
                step,
                attempt,
                outcome,
            })
        }
        Verb::Abort => Ok(Request::Abort(u32_at(value, "saga")?)),
        Verb::Show => Ok(Request::Show(u32_at(value, "saga")?)),
        Verb::Busy => Ok(Request::Busy),
        Verb::Ready => Ok(Request::Ready(from_of(value)?)),
        Verb::Sagas => sagas_of(from_of(value)?, value),
        Verb::Status => Ok(Request::Status),
        Verb::Define => Ok(Request::Define(bytes_of(alloc, value_at(value, "definition")?)?)),
    }
}

#[tactic(auto, unfolding(crate::specs::Requests::request_of_verb))]
fn request_of_verb(alloc: Global, verb: Verb, value: &Value) -> Result<Request, JsonFault>
    ensures { Gives (λ r. r) result (spec.request_of_verb verb (view value.now)) }
{
    check_keys(value, verb.keys(), verb.optional_keys())?;
    fields_of(alloc, verb, value)
}

fn verb_of_value(value: &Value) -> Option<Verb>
    ensures { result ≡ spec.verb_of (view value.now) }
{
    Verb::named(text_at(value, "do")?)
}

fn request_of_value(alloc: Global, value: &Value) -> Result<Request, JsonFault>
    ensures { Gives (λ r. r) result (spec.request_of (view value.now)) }
{
    match verb_of_value(value) {
        Some(verb) => request_of_verb(alloc, verb, value),
        None => Err(JsonFault::Kind),
    }
}

#[tactic(auto, unfolding(crate::specs::Requests::request_of_text))]
fn request_by_value(alloc: Global, line: &[u8]) -> Result<Request, JsonFault>
    ensures { Gives (λ r. r) result (spec.request_of_text line.now) }
{
    let value = value_of_text(alloc, line)?;
    request_of_value(alloc, &value)
}

/// Returns the request of a line. It tries the fast path for canonical form first, and then the general reader.
fn request_of_text(alloc: Global, line: &[u8]) -> Result<Request, JsonFault>
    ensures { Gives (λ r. r) result (spec.request_of_text line.now) }
{
    match plain_request(line) {
        Some(request) => Ok(request),
        None => request_by_value(alloc, line),
    }
}

fn is_too_long(line: &[u8]) -> bool
    ensures { IsTrue result ↔ (spec.max_request < length line.now) }
{
    line.len() > MAX_REQUEST
}

/// Reads a request from a line without its line feed. Takes time and memory linear in the line.
pub fn read_request(alloc: Global, line: &[u8]) -> Result<Request, RequestFault>
    ensures { spec.ReadsRequest line.now result }
{
    if is_too_long(line) {
        return Err(RequestFault::TooLong);
    }
    match request_of_text(alloc, line) {
        Ok(request) => Ok(request),
        Err(fault) => Err(RequestFault::Form(fault)),
    }
}
