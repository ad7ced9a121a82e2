//! The values at the keys that a request may have.
ghost use Rattle.std.specs.Prelude.{◌≡◌};
ghost use Rattle.serde_json.specs.View.{view};
ghost use Rattle.saga_json.specs.Keys.{has_key};
ghost use Rattle.saga_json.specs.Reads.{Gives};
ghost use Rattle.saga_drive.specs.Fields as spec;

use crate::attempts::Attempt;
use crate::openings::Wanted;
use saga_def::Text;
use saga_history::Kind;
use saga_json::{JsonFault, u16_at, u32_at, value_at};
use serde_json::Value;
use std::alloc::Global;

/// The maximum number of tasks in one reply.
pub const MAX_MOST: u16 = 1000;

/// Returns whether an object has a key.
pub fn has(value: &Value, key: &str) -> bool
    ensures { result ≡ has_key key.now (view value.now) }
{
    value.get(key).is_some()
}

/// Returns the integer at a key, or `None` if the object does not have the key.
pub fn u32_if(value: &Value, key: &str) -> Result<Option<u32>, JsonFault>
    ensures { result ≡ spec.u32_if key.now (view value.now) }
{
    if has(value, key) {
        Ok(Some(u32_at(value, key)?))
    } else {
        Ok(None)
    }
}

/// Returns an owned copy of a text.
pub fn bytes_of(alloc: Global, value: &Value) -> Result<Text, JsonFault>
    ensures { Gives (λ t. t) result (spec.bytes_of (view value.now)) }
{
    match value {
        Value::String(text) => Ok(Text::new(text.clone()?)),
        _ => Err(JsonFault::BadType),
    }
}

/// Returns the definition with which to open a saga. The request names it by its index or by its name, but not by both.
pub fn wanted_of(alloc: Global, value: &Value) -> Result<Wanted, JsonFault>
    ensures { Gives (λ w. w) result (spec.wanted_of (view value.now)) }
{
    if !has(value, "def") {
        return Ok(Wanted::Name(bytes_of(alloc, value_at(value, "name")?)?));
    }
    if has(value, "name") {
        return Err(JsonFault::UnknownKey);
    }
    Ok(Wanted::Index(u32_at(value, "def")?))
}

fn kind_named(word: &str) -> Result<Kind, JsonFault>
    ensures { result ≡ spec.kind_named word.now }
{
    match word {
        "run" => Ok(Kind::Run),
        "undo" => Ok(Kind::Undo),
        _ => Err(JsonFault::BadType),
    }
}

fn kind_of(value: &Value) -> Result<Kind, JsonFault>
    ensures { result ≡ spec.kind_of (view value.now) }
{
    match value {
        Value::String(word) => kind_named(word.as_str()),
        _ => Err(JsonFault::BadType),
    }
}

/// Returns the attempt that a report names. The request has both the task and the number of the attempt, or neither of
/// them.
pub fn attempt_of(value: &Value) -> Result<Option<Attempt>, JsonFault>
    ensures { result ≡ spec.attempt_of (view value.now) }
{
    if has(value, "task") {
        let number = u16_at(value, "attempt")?;
        let task = kind_of(value_at(value, "task")?)?;
        return Ok(Some(Attempt { task, number }));
    }
    if has(value, "attempt") {
        return Err(JsonFault::MissingKey);
    }
    Ok(None)
}

/// Returns the requested maximum number of tasks, which is from 1 to [`MAX_MOST`].
pub fn most_of(value: &Value) -> Result<u16, JsonFault>
    ensures { result ≡ spec.most_of (view value.now) }
{
    let most = u16_at(value, "most")?;
    if most == 0 || most > MAX_MOST {
        return Err(JsonFault::BadType);
    }
    Ok(most)
}
