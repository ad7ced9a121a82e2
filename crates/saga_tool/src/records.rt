//! The response to a record of many nodes.
ghost use Rattle.std.specs.Prelude.{◌≡◌, ◌++◌, Bool, IfOk, OnOk, Ok, Err, decimal};
ghost use Rattle.std.specs.String.{string_bytes};
ghost use Rattle.saga_fleet.specs.Lines.{record_of};
ghost use Rattle.saga_fleet.specs.Records.{IsAnswer};
ghost use Rattle.saga_tool.specs.Records.{IsJudged, IsRecordOutput, IsRefused, answer_line, fault_line, status_of};

use saga_fleet::{Event, LineFault, Record, RecordAnswer, audit_record, read_record};
use saga_texts::{Output, numbered_line};
use std::alloc::{AllocError, Global};

/// Appends a word and a number.
fn push_count(alloc: Global, line: &mut String, word: &str, count: usize) -> Result<(), AllocError>
    ensures { OnOk result
        (string_bytes line.new ≡ string_bytes line.old ++ word.now ++ decimal count) }
{
    line.push_str(word)?;
    line.push_str(format!(in alloc; "{count}")?.as_str())
}

/// The line for the result of an audit of these events. The first event is on the second line of the record.
fn answer_line(alloc: Global, events: &[Event], answer: RecordAnswer) -> Result<String, AllocError>
    requires { (synchronous : Bool) × IsAnswer synchronous events.now answer }
    ensures { IfOk result (λ text. string_bytes text ≡ answer_line answer) }
{
    let _ = events;
    match answer {
        RecordAnswer::Yes {
            sessions,
            chunks,
            failovers,
            events,
        } => {
            let mut line = String::new(alloc);
            push_count(alloc, &mut line, "yes sessions ", sessions)?;
            push_count(alloc, &mut line, " chunks ", chunks)?;
            push_count(alloc, &mut line, " failovers ", failovers)?;
            push_count(alloc, &mut line, " events ", events)?;
            line.push_str("\n")?;
            Ok(line)
        }
        RecordAnswer::No { position, reason } => {
            numbered_line(alloc, "no line ", position + 2, " ", reason.word())
        }
    }
}

fn status_of(answer: RecordAnswer) -> u8
    ensures { result ≡ status_of answer }
{
    match answer {
        RecordAnswer::Yes { .. } => 0,
        RecordAnswer::No { .. } => 1,
    }
}

fn fault_line(alloc: Global, fault: LineFault) -> Result<String, AllocError>
    ensures { IfOk result (λ text. string_bytes text ≡ fault_line fault) }
{
    match fault {
        LineFault::TooLong => String::from_str(alloc, "sagas: record: too-long\n"),
        LineFault::BadHeader => String::from_str(alloc, "sagas: record: no-header\n"),
        LineFault::BadLine(line) => {
            numbered_line(alloc, "sagas: record: line ", line, ": ", "not-an-event")
        }
        LineFault::OutOfMemory => Err(AllocError),
    }
}

/// The response to a text that is not a record.
fn refuse(alloc: Global, fault: LineFault) -> Result<Output, AllocError>
    ensures { (text : _) → record_of text ≡ Err fault → IfOk result (IsRefused text) }
{
    Ok(Output {
        out: String::new(alloc),
        err: fault_line(alloc, fault)?,
        status: 3,
    })
}

/// The response to a record.
fn judge(alloc: Global, held: &Record) -> Result<Output, AllocError>
    ensures { (text : _)
        → record_of text ≡ Ok (held.now.is_synchronous, held.now.events.items)
        → IfOk result (IsJudged text) }
{
    let events = held.events.as_slice();
    let answer = audit_record(alloc, held.is_synchronous, events)?;
    Ok(Output {
        out: answer_line(alloc, events, answer)?,
        err: String::new(alloc),
        status: status_of(answer),
    })
}

/// Audits a record. The output says whether the record is one of an allowed run. Otherwise it has the number, from 1,
/// of the first line that is not allowed, and the reason. Takes time and memory linear in the text.
pub fn judge_record(alloc: Global, text: &[u8]) -> Result<Output, AllocError>
    ensures { IfOk result (IsRecordOutput text.now) }
{
    match read_record(alloc, text) {
        Ok(held) => judge(alloc, &held),
        Err(LineFault::OutOfMemory) => Err(AllocError),
        Err(fault) => refuse(alloc, fault),
    }
}
