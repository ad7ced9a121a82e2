//! The result of an audit of texts, and the output for this result.
ghost use Rattle.std.specs.Prelude.{◌≡◌, ◌++◌, OnOk, IfOk, MatchResult, decimal, map};
ghost use Rattle.std.specs.String.{string_bytes};
ghost use Rattle.saga_texts.specs.Audits.{AuditsTo, HoldAudit, LackAudit, answer_line, out_of, err_of, status_of};
ghost use Rattle.saga_texts.specs.Lines.{line_feed};
ghost use Rattle.saga_texts.specs.Outputs.{IsOutputWith};

use crate::limits::{AUDITORS, MAX_LOG, MAX_LONG_SHELF};
use crate::outputs::Output;
use crate::shelves::{ShelfFault, read_shelf};
use saga_audit::{AuditAnswer, audit, audit_with};
use saga_def::Definition;
use saga_history::Event;
use saga_json::JsonFault;
use saga_log::{LogFault, read_log};
use saga_text::TextFault;
use std::alloc::{AllocError, Global};
use std::thread::Threads;

/// The result of an audit: a fault of a text, or the result of the auditor.
#[derive(Debug, Drop)]
pub enum AuditConclusion {
    TooManyDefinitions,
    LogTooLong,
    /// The number of the first invalid line of the log, counted from 1.
    Log { line: usize, why: JsonFault },
    /// The index of the first definition with a fault, counted from 0.
    Definition { place: usize, why: TextFault },
    Answered(AuditAnswer),
}

/// The history and the shelf of the texts of an audit.
#[derive(Debug, Drop)]
pub struct AuditTexts {
    pub events: Vec<Event>,
    pub shelf: Vec<Definition>,
}

/// Reads the history and the shelf from texts. If this fails, returns the first fault in the order number of
/// definitions, log, definitions.
fn texts_of(
    alloc: Global,
    log: &[u8],
    definitions: &[&[u8]],
) -> Result<Result<AuditTexts, AuditConclusion>, AllocError>
    ensures { IfOk result
        (λ given. MatchResult given (HoldAudit log.now (map (λ t. t.now) definitions.now))
        (LackAudit log.now (map (λ t. t.now) definitions.now))) }
{
    if definitions.len() > MAX_LONG_SHELF {
        return Ok(Err(AuditConclusion::TooManyDefinitions));
    }
    if log.len() > MAX_LOG {
        return Ok(Err(AuditConclusion::LogTooLong));
    }
    let events = match read_log(alloc, log) {
        Ok(events) => events,
        Err(LogFault::OutOfMemory) => return Err(AllocError),
        Err(LogFault::BadLine { line, why }) => return Ok(Err(AuditConclusion::Log { line, why })),
    };
    let shelf = match read_shelf(alloc, definitions) {
        Ok(shelf) => shelf,
        Err(ShelfFault::OutOfMemory) => return Err(AllocError),
        Err(ShelfFault::Definition { place, why }) => {
            return Ok(Err(AuditConclusion::Definition { place, why }));
        }
    };
    Ok(Ok(AuditTexts { events, shelf }))
}

/// Audits the log of a text over the definitions of texts, with several threads.
#[tactic(auto, using(crate::proofs::AuditLemmas::lacking, crate::proofs::AuditLemmas::answered))]
pub fn audit_conclusion<R: Threads + Sync>(
    rt: &R,
    alloc: Global,
    log: &[u8],
    definitions: &[&[u8]],
) -> Result<AuditConclusion, AllocError>
    ensures { IfOk result (AuditsTo log.now (map (λ t. t.now) definitions.now)) }
{
    match texts_of(alloc, log, definitions)? {
        Ok(texts) => Ok(AuditConclusion::Answered(audit_with(
            rt,
            alloc,
            AUDITORS,
            &texts.shelf,
            &texts.events,
        )?)),
        Err(conclusion) => Ok(conclusion),
    }
}

/// Returns the result of [`audit_conclusion`], on the calling thread only.
#[tactic(auto, using(crate::proofs::AuditLemmas::lacking, crate::proofs::AuditLemmas::answered))]
pub fn audit_conclusion_alone(
    alloc: Global,
    log: &[u8],
    definitions: &[&[u8]],
) -> Result<AuditConclusion, AllocError>
    ensures { IfOk result (AuditsTo log.now (map (λ t. t.now) definitions.now)) }
{
    match texts_of(alloc, log, definitions)? {
        Ok(texts) => Ok(AuditConclusion::Answered(audit(alloc, &texts.shelf, &texts.events)?)),
        Err(conclusion) => Ok(conclusion),
    }
}

/// Appends a number in decimal digits.
pub fn push_number(alloc: Global, line: &mut String, number: usize) -> Result<(), AllocError>
    ensures { OnOk result (string_bytes line.new ≡ string_bytes line.old ++ decimal number) }
{
    line.push_str(format!(in alloc; "{number}")?.as_str())
}

/// Returns a line with a number and a word.
pub fn numbered_line(
    alloc: Global,
    start: &str,
    number: usize,
    between: &str,
    word: &str,
) -> Result<String, AllocError>
    ensures { IfOk result (λ text. string_bytes text
        ≡ start.now ++ decimal number ++ between.now ++ word.now ++ line_feed) }
{
    let mut line = String::from_str(alloc, start)?;
    push_number(alloc, &mut line, number)?;
    line.push_str(between)?;
    line.push_str(word)?;
    line.push_str("\n")?;
    Ok(line)
}

fn answer_line(alloc: Global, answer: AuditAnswer) -> Result<String, AllocError>
    ensures { IfOk result (λ text. string_bytes text ≡ answer_line answer) }
{
    match answer {
        AuditAnswer::Yes {
            sagas,
            ended,
            stuck,
            events,
        } => {
            let mut line = String::from_str(alloc, "yes sagas ")?;
            push_number(alloc, &mut line, sagas)?;
            line.push_str(" ended ")?;
            push_number(alloc, &mut line, ended)?;
            line.push_str(" stuck ")?;
            push_number(alloc, &mut line, stuck)?;
            line.push_str(" events ")?;
            push_number(alloc, &mut line, events)?;
            line.push_str("\n")?;
            Ok(line)
        }
        AuditAnswer::No { position, reason } => {
            numbered_line(alloc, "no ", position, " ", reason.word())
        }
    }
}

fn out(alloc: Global, conclusion: &AuditConclusion) -> Result<String, AllocError>
    ensures { IfOk result (λ text. string_bytes text ≡ out_of conclusion.now) }
{
    match conclusion {
        AuditConclusion::Answered(answer) => answer_line(alloc, *answer),
        _ => Ok(String::new(alloc)),
    }
}

fn err(alloc: Global, conclusion: &AuditConclusion) -> Result<String, AllocError>
    ensures { IfOk result (λ text. string_bytes text ≡ err_of conclusion.now) }
{
    match conclusion {
        AuditConclusion::TooManyDefinitions => {
            String::from_str(alloc, "sagas: too many definitions\n")
        }
        AuditConclusion::LogTooLong => String::from_str(alloc, "sagas: log: too-long\n"),
        AuditConclusion::Log { line, why } => {
            numbered_line(alloc, "sagas: log: line ", *line, ": ", why.word())
        }
        AuditConclusion::Definition { place, why } => {
            numbered_line(alloc, "sagas: definition ", *place, ": ", why.word())
        }
        AuditConclusion::Answered(_) => Ok(String::new(alloc)),
    }
}

fn status(conclusion: &AuditConclusion) -> u8
    ensures { result ≡ status_of conclusion.now }
{
    match conclusion {
        AuditConclusion::Answered(AuditAnswer::Yes { .. }) => 0,
        AuditConclusion::Answered(AuditAnswer::No { .. }) => 1,
        _ => 3,
    }
}

/// Returns the output for the result of an audit.
pub fn output_of_audit(alloc: Global, conclusion: &AuditConclusion) -> Result<Output, AllocError>
    ensures { IfOk result
        (IsOutputWith (out_of conclusion.now) (err_of conclusion.now) (status_of conclusion.now)) }
{
    Ok(Output {
        out: out(alloc, conclusion)?,
        err: err(alloc, conclusion)?,
        status: status(conclusion),
    })
}
