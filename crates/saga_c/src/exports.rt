//! The functions that C programs call.
//!
//! Each function returns a status. `used` gets the length of the output text, which the function writes to the start of
//! the buffer. The statuses 0, 1 and 3 are the exit statuses of the program. The text is the standard output of the
//! program, or for a fault of an input text the message that the program writes to standard error. Status 4 means that
//! an allocation failed, and status 5 that the buffer is too small. In these two cases the buffer is unchanged.
ghost use Rattle.std.specs.Prelude.{[], ◌∷◌, IfOk, map};
ghost use Rattle.saga_texts.specs.Texts.{IsCheckOutput, IsDrawOutput, IsPlanOutput};
ghost use Rattle.saga_texts.specs.Audits.{IsAuditOutput};
ghost use Rattle.saga_c.specs.Given.{IsGiven};
ghost use Rattle.saga_c.specs.Pieces.{piece};

use crate::filling::give;
use crate::pieces::{Span, pieces_of};
use saga_texts::{Output, Scene, audit_text_alone, check_text, draw_text, plan_text};
use std::alloc::{AllocError, Global};

/// Verifies an answer to a case of a definition. Returns 0 with `least N` or `blocked`, or 1 with `no FAULT`.
#[tactic(auto, using(crate::proofs::Giving::given))]
#[unsafe(no_mangle)]
pub extern "C" fn sagas_check(
    alloc: Global,
    definition: &[u8],
    case: &[u8],
    answer: &[u8],
    buffer: &mut [u8],
    used: &mut usize,
) -> u32
    ensures { IsGiven (IsCheckOutput definition.now case.now answer.now)
        buffer.old buffer.new used.new result }
{
    give(check_text(alloc, definition, case, answer), buffer, used)
}

/// Makes an answer to a case of a definition. Returns 0 with a plan, or 1 with a chain.
#[tactic(auto, using(crate::proofs::Giving::given))]
#[unsafe(no_mangle)]
pub extern "C" fn sagas_plan(
    alloc: Global,
    definition: &[u8],
    case: &[u8],
    buffer: &mut [u8],
    used: &mut usize,
) -> u32
    ensures { IsGiven (IsPlanOutput definition.now case.now) buffer.old buffer.new used.new result }
{
    give(plan_text(alloc, definition, case), buffer, used)
}

/// Audits the log of sagas of one definition. Returns 0 with `yes` and counts, or 1 with `no P REASON`.
#[tactic(auto, using(crate::proofs::Giving::given))]
#[unsafe(no_mangle)]
pub extern "C" fn sagas_audit(
    alloc: Global,
    log: &[u8],
    definition: &[u8],
    buffer: &mut [u8],
    used: &mut usize,
) -> u32
    ensures { IsGiven (IsAuditOutput log.now (definition.now ∷ [])) buffer.old buffer.new used.new result }
{
    give(audit_text_alone(alloc, log, &[definition]), buffer, used)
}

/// Audits a log over the definitions at these ranges of a text.
fn audited(
    alloc: Global,
    log: &[u8],
    definitions: &[u8],
    spans: &[Span],
) -> Result<Output, AllocError>
    ensures { IfOk result (IsAuditOutput log.now (map (piece definitions.now) spans.now)) }
{
    let shelf = pieces_of(alloc, definitions, spans)?;
    audit_text_alone(alloc, log, &shelf)
}

/// Audits the log of sagas of several definitions, as [`sagas_audit`] does for one. One text holds all definitions, and
/// each span is the range of one of them.
#[tactic(auto, using(crate::proofs::Giving::given))]
#[unsafe(no_mangle)]
pub extern "C" fn sagas_audit_all(
    alloc: Global,
    log: &[u8],
    definitions: &[u8],
    spans: &[Span],
    buffer: &mut [u8],
    used: &mut usize,
) -> u32
    ensures { IsGiven (IsAuditOutput log.now (map (piece definitions.now) spans.now))
        buffer.old buffer.new used.new result }
{
    give(audited(alloc, log, definitions, spans), buffer, used)
}

/// Draws a definition. Returns 0 with the drawing in the DOT language of Graphviz.
#[tactic(auto, using(crate::proofs::Giving::given))]
#[unsafe(no_mangle)]
pub extern "C" fn sagas_draw(
    alloc: Global,
    definition: &[u8],
    buffer: &mut [u8],
    used: &mut usize,
) -> u32
    ensures { IsGiven (IsDrawOutput [] definition.now) buffer.old buffer.new used.new result }
{
    give(
        draw_text(alloc, definition, Scene::Definition),
        buffer,
        used,
    )
}

/// Draws a case.
#[tactic(auto, using(crate::proofs::Giving::given))]
#[unsafe(no_mangle)]
pub extern "C" fn sagas_draw_case(
    alloc: Global,
    definition: &[u8],
    case: &[u8],
    buffer: &mut [u8],
    used: &mut usize,
) -> u32
    ensures { IsGiven (IsDrawOutput (case.now ∷ []) definition.now)
        buffer.old buffer.new used.new result }
{
    give(
        draw_text(alloc, definition, Scene::Case(case)),
        buffer,
        used,
    )
}

/// Draws a case with the marks of an answer. Returns 1 with `no FAULT` if the answer is not right.
#[tactic(auto, using(crate::proofs::Giving::given))]
#[unsafe(no_mangle)]
pub extern "C" fn sagas_draw_answer(
    alloc: Global,
    definition: &[u8],
    case: &[u8],
    answer: &[u8],
    buffer: &mut [u8],
    used: &mut usize,
) -> u32
    ensures { IsGiven (IsDrawOutput (case.now ∷ answer.now ∷ []) definition.now)
        buffer.old buffer.new used.new result }
{
    give(
        draw_text(alloc, definition, Scene::Answer(case, answer)),
        buffer,
        used,
    )
}
