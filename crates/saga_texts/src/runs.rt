//! The result of a run of texts, and the output for this result.
ghost use Rattle.std.specs.Prelude.{◌≡◌, ◌<◌, ◌≤◌, ◌++◌, IfOk, Ok, length, map, option_map};
ghost use Rattle.std.specs.List.{flat_map, range_with_len};
ghost use Rattle.std.specs.String.{string_bytes};
ghost use Rattle.saga_desk.specs.Finish.{events_of};
ghost use Rattle.saga_history.specs.Changes.{past};
ghost use Rattle.saga_history.specs.Rules.{IsLegal};
ghost use Rattle.saga_log.specs.Logs.{log_of as history_of};
ghost use Rattle.saga_report.specs.Reports.{IsCountedReport};
ghost use Rattle.saga_texts.specs.Limits.{max_shelf};
ghost use Rattle.saga_texts.specs.Lines.{line_feed};
ghost use Rattle.saga_texts.specs.Runs.{RunsTo, TellsOf, ShowsRun, err_of, log_of, out_of, script_line, status_of, status_told, stop_line};

use crate::audits::{numbered_line, push_number};
use crate::limits::MAX_SHELF;
use crate::outputs::Output;
use crate::shelves::{ShelfFault, read_shelf};
use saga_core::{Book, OpenRefusal};
use saga_def::Definition;
use saga_history::Event;
use saga_log::write_log;
use saga_report::{CountedReport, report_counted};
use saga_script::{Script, ScriptFault};
use saga_text::TextFault;
use saga_work::{Run, RunFault, Stop, run_all};
use std::alloc::{AllocError, Global};
use std::sync::Wait;
use std::thread::Threads;

/// The report and the log of the books of a run.
#[derive(Drop)]
pub struct Account {
    pub report: String,
    /// The number of stuck sagas.
    pub stuck: usize,
    /// The log of the histories of the books, one after the other.
    pub log: String,
    /// Why the run stopped before each saga was ended or stuck; `None` if it did not.
    pub stopped: Option<Stop>,
}

/// The result of a run: a fault of a text, why there are no books, or the report and the log of the books.
#[derive(Drop)]
pub enum RunConclusion {
    TooManyDefinitions,
    Script(ScriptFault),
    /// The index of the first definition with a fault, counted from 0.
    Definition { place: usize, why: TextFault },
    /// There are no books.
    Fault(RunFault),
    Told(Account),
}

/// Returns the indices of a shelf, each once.
fn places_of(alloc: Global, shelf: &[Definition]) -> Result<Vec<u32>, AllocError>
    requires { length shelf.now ≤ max_shelf }
    ensures { IfOk result (λ places. places.items ≡ range_with_len 0 (length shelf.now)) }
{
    let mut places = Vec::new(alloc);
    for place in 0..shelf.len() {
        places.push(place as u32)?;
    }
    Ok(places)
}

/// Returns the histories of books, borrowed.
fn histories_of<'a>(alloc: Global, books: &'a [Book<'_>]) -> Result<Vec<&'a [Event]>, AllocError>
    ensures { IfOk result
        (λ histories. map (λ h. h.now) histories.items ≡ events_of books.entry.now) }
{
    let mut histories = Vec::new(alloc);
    for book in books {
        histories.push(book.history())?;
    }
    Ok(histories)
}

/// Returns the histories of books, one after the other.
fn joined(alloc: Global, books: Vec<Book<'_>>) -> Result<Vec<Event>, AllocError>
    ensures { IfOk result (λ events. events.items ≡ flat_map (λ b. b.history) books.entry.items) }
{
    let mut events = Vec::new(alloc);
    for book in books {
        let mut history = book.into_history();
        events.append(&mut history)?;
    }
    Ok(events)
}

/// Returns the report of books.
fn report_of(
    alloc: Global,
    shelf: &[Definition],
    books: &[Book<'_>],
) -> Result<CountedReport, AllocError>
    ensures { IfOk result (λ report. IsCountedReport shelf.now (events_of books.now)
        (string_bytes report.text) report.stuck) }
{
    let histories = histories_of(alloc, books)?;
    report_counted(alloc, shelf, &histories)
}

/// Returns the report and the log of the books of a run.
fn account_of(alloc: Global, shelf: &[Definition], run: Run<'_>) -> Result<Account, AllocError>
    ensures tells { IfOk result (TellsOf shelf.now run.entry.books.items run.entry.stopped) }
    ensures read_back { IfOk result (λ account.
        IsLegal shelf.now (past (flat_map (λ b. b.history) run.entry.books.items))
        → history_of (string_bytes account.log)
        ≡ Ok (flat_map (λ b. b.history) run.entry.books.items)) }
{
    let Run { books, stopped } = run;
    let CountedReport { text, stuck } = report_of(alloc, shelf, &books)?;
    let events = joined(alloc, books)?;
    let log = write_log(alloc, &events)?;
    Ok(Account {
        report: text,
        stuck,
        log,
        stopped,
    })
}

/// Runs the definitions of texts with a script. A fault is the first in the order number of definitions, script,
/// definitions.
pub fn run_conclusion<R: Threads + Wait + Sync>(
    rt: &R,
    alloc: Global,
    definitions: &[&[u8]],
    script: &[u8],
    workers: u32,
    shards: u32,
) -> Result<RunConclusion, AllocError>
    requires workers { (0 < workers) × (workers ≤ 16) }
    requires shards { (0 < shards) × (shards ≤ 16) }
    ensures { IfOk result (RunsTo (map (λ t. t.now) definitions.now) script.now shards) }
{
    if definitions.len() > MAX_SHELF {
        return Ok(RunConclusion::TooManyDefinitions);
    }
    let script = match Script::read(alloc, script) {
        Ok(script) => script,
        Err(ScriptFault::OutOfMemory) => return Err(AllocError),
        Err(fault) => return Ok(RunConclusion::Script(fault)),
    };
    let shelf = match read_shelf(alloc, definitions) {
        Ok(shelf) => shelf,
        Err(ShelfFault::OutOfMemory) => return Err(AllocError),
        Err(ShelfFault::Definition { place, why }) => {
            return Ok(RunConclusion::Definition { place, why });
        }
    };
    let asks = places_of(alloc, &shelf)?;
    match run_all(rt, alloc, &shelf, &asks, workers, shards, &script) {
        Ok(run) => Ok(RunConclusion::Told(account_of(alloc, &shelf, run)?)),
        Err(RunFault::OutOfMemory | RunFault::Open(_, OpenRefusal::OutOfMemory)) => Err(AllocError),
        Err(fault) => Ok(RunConclusion::Fault(fault)),
    }
}

fn script_line(alloc: Global, fault: ScriptFault) -> Result<String, AllocError>
    ensures { IfOk result (λ text. string_bytes text ≡ script_line fault) }
{
    match fault {
        ScriptFault::TooLong => String::from_str(alloc, "sagas: script: too-long\n"),
        ScriptFault::BadLine(line) => {
            let mut text = String::from_str(alloc, "sagas: script: line ")?;
            push_number(alloc, &mut text, line)?;
            text.push_str("\n")?;
            Ok(text)
        }
        ScriptFault::OutOfMemory => Ok(String::new(alloc)),
    }
}

/// Returns a line with one word.
fn word_line(alloc: Global, start: &str, word: &str) -> Result<String, AllocError>
    ensures { IfOk result (λ text. string_bytes text ≡ start.now ++ word.now ++ line_feed) }
{
    let mut line = String::from_str(alloc, start)?;
    line.push_str(word)?;
    line.push_str("\n")?;
    Ok(line)
}

fn stop_line(alloc: Global, stopped: Option<Stop>) -> Result<String, AllocError>
    ensures { IfOk result (λ text. string_bytes text ≡ stop_line stopped) }
{
    match stopped {
        None => Ok(String::new(alloc)),
        Some(stop) => word_line(alloc, "sagas: stopped: ", stop.word()),
    }
}

fn err(alloc: Global, conclusion: &RunConclusion) -> Result<String, AllocError>
    ensures { IfOk result (λ text. string_bytes text ≡ err_of conclusion.now) }
{
    match conclusion {
        RunConclusion::TooManyDefinitions => String::from_str(
            alloc,
            "sagas: too many definitions\n",
        ),
        RunConclusion::Script(fault) => script_line(alloc, *fault),
        RunConclusion::Definition { place, why } => {
            numbered_line(alloc, "sagas: definition ", *place, ": ", why.word())
        }
        RunConclusion::Fault(fault) => word_line(alloc, "sagas: run: ", fault.word()),
        RunConclusion::Told(account) => stop_line(alloc, account.stopped),
    }
}

fn status_told(stopped: Option<Stop>, stuck: usize) -> u8
    ensures { result ≡ status_told stopped stuck }
{
    match stopped {
        Some(_) => 4,
        None => { if stuck > 0 { 1 } else { 0 } }
    }
}

fn status(conclusion: &RunConclusion) -> u8
    ensures { result ≡ status_of conclusion.now }
{
    match conclusion {
        RunConclusion::Told(account) => status_told(account.stopped, account.stuck),
        RunConclusion::Fault(_) => 4,
        _ => 3,
    }
}

/// The output of a run, and the log of its books if there are books.
#[derive(Drop)]
pub struct RunOutput {
    pub output: Output,
    pub log: Option<String>,
}

/// Returns the report and the log of the books, if there are books.
fn told(alloc: Global, conclusion: RunConclusion) -> (String, Option<String>)
    ensures report { string_bytes result.0 ≡ out_of conclusion }
    ensures log { option_map string_bytes result.1 ≡ log_of conclusion }
{
    match conclusion {
        RunConclusion::Told(account) => {
            let Account { report, log, .. } = account;
            (report, Some(log))
        }
        RunConclusion::Definition { why: _why, .. } => (String::new(alloc), None),
        RunConclusion::TooManyDefinitions | RunConclusion::Script(_) | RunConclusion::Fault(_) => {
            (String::new(alloc), None)
        }
    }
}

/// Returns the output for the result of a run, and the log.
pub fn output_of_run(alloc: Global, conclusion: RunConclusion) -> Result<RunOutput, AllocError>
    ensures { IfOk result (ShowsRun conclusion) }
{
    let err = err(alloc, &conclusion)?;
    let status = status(&conclusion);
    let (out, log) = told(alloc, conclusion);
    Ok(RunOutput {
        output: Output { out, err, status },
        log,
    })
}
