//! The value of a text.
ghost use Rattle.std.specs.Prelude.{MatchResult};
ghost use Rattle.serde_json.specs.View.{view};
ghost use Rattle.saga_json.specs.Reads.{Gives};
ghost use Rattle.saga_json.specs.Texts.{IsTextOf, IsJsonFault, json_of};

use crate::faults::JsonFault;
use serde_json::Value;
use std::alloc::Global;

/// The JSON value of a text, as `serde_json` parses it. The fault is `NotJson` or lack of memory.
pub fn value_of_text(alloc: Global, bytes: &[u8]) -> Result<Value, JsonFault>
    ensures text { MatchResult result (λ v. IsTextOf (view v) bytes.now) (IsJsonFault bytes.now) }
    ensures value { Gives view result (json_of bytes.now) }
{
    match Value::from_slice(alloc, bytes) {
        Ok(value) => Ok(value),
        Err(error) => {
            if error.is_memory() {
                Err(JsonFault::OutOfMemory)
            } else {
                Err(JsonFault::NotJson)
            }
        }
    }
}
