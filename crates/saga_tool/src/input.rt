//! The response to standard input.
ghost use Rattle.std.specs.Prelude.{◌↔◌, ◌<◌, IfOk, IsTrue, length};
ghost use Rattle.saga_tool.specs.Input.{AnswersInput, IsBadInput};
ghost use Rattle.saga_tool.specs.Limits.{max_input};

use crate::limits::MAX_INPUT;
use crate::parts::parts_of;
use saga_texts::{Output, check_text};
use std::alloc::{AllocError, Global};

fn is_too_long(input: &[u8]) -> bool
    ensures { IsTrue result ↔ (max_input < length input.now) }
{
    input.len() > MAX_INPUT
}

fn bad_input(alloc: Global, err: &str) -> Result<Output, AllocError>
    ensures { IfOk result (IsBadInput err.now) }
{
    Ok(Output {
        out: String::new(alloc),
        err: String::from_str(alloc, err)?,
        status: 3,
    })
}

/// Returns the result of [`check_text`] for three texts in one input, which lines that are exactly `---` separate.
pub fn check_input(alloc: Global, input: &[u8]) -> Result<Output, AllocError>
    ensures { IfOk result (AnswersInput input.now) }
{
    if is_too_long(input) {
        return bad_input(alloc, "sagas: input: too-long\n");
    }
    match parts_of(input) {
        None => bad_input(alloc, "sagas: input: parts\n"),
        Some(parts) => check_text(alloc, parts.definition, parts.case, parts.answer),
    }
}
