//! Reads and writes the texts.
ghost use Rattle.std.specs.Prelude.{◌≡◌, IfOk, Ok, string_bytes};
ghost use Rattle.serde_json.specs.Written.{compact_text};
ghost use Rattle.saga_cert.specs.Answers.{answer_form, IsPaired};
ghost use Rattle.saga_cert.specs.Cases.{case_form};
ghost use Rattle.saga_cert.specs.Reads.{ReadsAnswer, ReadsCase};

use crate::answers::answer_of_value;
use crate::cases::case_of;
use crate::states::written_of;
use crate::written_answers::value_of_answer;
use crate::written_cases::value_of_case;
use saga_case::{Answer, Case};
use saga_def::Definition;
use saga_json::{JsonFault, value_of_text};
use std::alloc::{AllocError, Global};

/// Reads a case of a definition, in time linear in the text.
pub fn read_case<'d>(
    alloc: Global,
    definition: &'d Definition,
    bytes: &[u8],
) -> Result<Case<'d>, JsonFault>
    ensures { ReadsCase definition.entry.now bytes.now result }
{
    let value = value_of_text(alloc, bytes)?;
    let written = written_of(alloc, &value)?;
    case_of(definition, written)
}

/// Reads an answer, in time linear in the text. Its lists may have any length.
pub fn read_answer(alloc: Global, bytes: &[u8]) -> Result<Answer, JsonFault>
    ensures { ReadsAnswer bytes.now result }
{
    let value = value_of_text(alloc, bytes)?;
    answer_of_value(alloc, &value)
}

/// The text of a case.
pub fn write_case(alloc: Global, case: &Case) -> Result<String, AllocError>
    ensures text { IfOk result (λ s. string_bytes s ≡ compact_text (case_form case.now)) }
    ensures read_back { IfOk result
        (λ s. ReadsCase case.now.definition (string_bytes s) (Ok case.now)) }
{
    value_of_case(alloc, case)?.to_string(alloc)
}

/// The text of an answer.
pub fn write_answer(alloc: Global, answer: &Answer) -> Result<String, AllocError>
    ensures text { IfOk result (λ s. string_bytes s ≡ compact_text (answer_form answer.now)) }
    ensures read_back { IfOk result
        (λ s. IsPaired answer.now → ReadsAnswer (string_bytes s) (Ok answer.now)) }
{
    value_of_answer(alloc, answer)?.to_string(alloc)
}
