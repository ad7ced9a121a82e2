//! The results of questions about a case.
ghost use Rattle.std.specs.Prelude.{◌↔◌, ◌<◌, IfOk, IsTrue, MatchResult, length, option_map};
ghost use Rattle.saga_texts.specs.Conclusions.{ComesTo, AnswersTo, ChecksTo, DrawsRight, DrawsTo, HoldsAnswer, JudgesTo, LacksAnswer, ShowsCase};
ghost use Rattle.saga_texts.specs.Limits.{max_certificate};

use crate::limits::MAX_CERTIFICATE;
use saga_case::{Answer, Case};
use saga_cert::{read_answer, read_case};
use saga_check::{CheckFault, judge};
use saga_draw::draw;
use saga_json::JsonFault;
use saga_plan::plan;
use saga_text::{TextFault, read_definition};
use std::alloc::{AllocError, Global};

/// A question about a case.
#[derive(Clone, Copy)]
pub enum Question<'a> {
    /// Is the answer in this text right?
    Check(&'a [u8]),
    /// What is a right answer?
    Plan,
    /// What is the drawing of the case? It has the marks of the answer in this text, if one is given.
    Draw(Option<&'a [u8]>),
}

/// The result of a question: a fault of a text, the verdict of the judge, an answer, or a drawing.
#[derive(Debug, Drop)]
pub enum Conclusion {
    Definition(TextFault),
    CaseTooLong,
    Case(JsonFault),
    AnswerTooLong,
    Answer(JsonFault),
    /// The answer is not right.
    Refused(CheckFault),
    /// The plan is right and has this cost, which is the minimum.
    Least(u64),
    /// No set of steps is allowed.
    Blocked,
    /// The requested answer.
    Planned(Answer),
    /// The text of a drawing.
    Drawn(String),
}

/// Returns whether a text is too long for a case or an answer.
fn is_too_long(text: &[u8]) -> bool
    ensures { IsTrue result ↔ (max_certificate < length text.now) }
{
    text.len() > MAX_CERTIFICATE
}

/// Returns the verdict of the judge on an answer to a case.
fn judged(case: &Case, answer: &Answer) -> Conclusion
    ensures { JudgesTo case.now answer.now result }
{
    match judge(case, answer) {
        Err(fault) => Conclusion::Refused(fault),
        Ok(()) => match answer {
            Answer::Plan(plan) => Conclusion::Least(plan.cost),
            Answer::Blocked(_) => Conclusion::Blocked,
        },
    }
}

/// Reads an answer from a text. If this fails, returns the result with the fault.
fn answer_of(alloc: Global, text: &[u8]) -> Result<Result<Answer, Conclusion>, AllocError>
    ensures { IfOk result
        (λ given. MatchResult given (HoldsAnswer text.now) (LacksAnswer text.now)) }
{
    if is_too_long(text) {
        return Ok(Err(Conclusion::AnswerTooLong));
    }
    match read_answer(alloc, text) {
        Ok(answer) => Ok(Ok(answer)),
        Err(JsonFault::OutOfMemory) => Err(AllocError),
        Err(fault) => Ok(Err(Conclusion::Answer(fault))),
    }
}

/// Returns the result of a check of the answer in a text.
fn checked(alloc: Global, case: &Case, answer: &[u8]) -> Result<Conclusion, AllocError>
    ensures { IfOk result (ChecksTo answer.now case.now) }
{
    match answer_of(alloc, answer)? {
        Ok(answer) => Ok(judged(case, &answer)),
        Err(conclusion) => Ok(conclusion),
    }
}

/// Returns the drawing of a case, with the marks of an answer if one is given.
fn shown(alloc: Global, case: &Case, answer: Option<&Answer>) -> Result<Conclusion, AllocError>
    ensures { IfOk result (ShowsCase case.now (option_map (λ a. a.now) answer.entry)) }
{
    let text = draw(alloc, case.definition(), Some(case.states()), answer)?;
    Ok(Conclusion::Drawn(text))
}

/// Returns the drawing of a case with the marks of an answer, if the answer is right.
fn shown_if_right(alloc: Global, case: &Case, answer: &Answer) -> Result<Conclusion, AllocError>
    ensures { IfOk result (DrawsRight case.now answer.now) }
{
    match judge(case, answer) {
        Err(fault) => Ok(Conclusion::Refused(fault)),
        Ok(()) => shown(alloc, case, Some(answer)),
    }
}

/// Returns the result of the drawing of a case.
fn drawn(alloc: Global, case: &Case, answer: Option<&[u8]>) -> Result<Conclusion, AllocError>
    ensures { IfOk result (DrawsTo (option_map (λ t. t.now) answer.entry) case.now) }
{
    let Some(text) = answer else {
        return shown(alloc, case, None);
    };
    match answer_of(alloc, text)? {
        Ok(answer) => shown_if_right(alloc, case, &answer),
        Err(conclusion) => Ok(conclusion),
    }
}

/// Returns the result of a question about a case.
fn answered(alloc: Global, case: &Case, question: Question<'_>) -> Result<Conclusion, AllocError>
    ensures { IfOk result (AnswersTo question.entry case.now) }
{
    match question {
        Question::Check(answer) => checked(alloc, case, answer),
        Question::Plan => Ok(Conclusion::Planned(plan(alloc, case)?)),
        Question::Draw(answer) => drawn(alloc, case, answer),
    }
}

/// Returns the result of a question about the case of two texts. A fault is the first in the order definition, case,
/// answer. The limit for the length of a text is checked together with that text.
pub fn conclusion_of(
    alloc: Global,
    definition: &[u8],
    case: &[u8],
    question: Question<'_>,
) -> Result<Conclusion, AllocError>
    ensures { IfOk result (ComesTo (AnswersTo question.entry) definition.now case.now) }
{
    let definition = match read_definition(alloc, definition) {
        Ok(definition) => definition,
        Err(TextFault::OutOfMemory) => return Err(AllocError),
        Err(fault) => return Ok(Conclusion::Definition(fault)),
    };
    if is_too_long(case) {
        return Ok(Conclusion::CaseTooLong);
    }
    match read_case(alloc, &definition, case) {
        Ok(case) => answered(alloc, &case, question),
        Err(JsonFault::OutOfMemory) => Err(AllocError),
        Err(fault) => Ok(Conclusion::Case(fault)),
    }
}
