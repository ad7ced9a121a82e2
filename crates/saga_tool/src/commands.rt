//! Execution of each command on its files.
ghost use Rattle.std.specs.Prelude.{◌≡◌, ◌<◌, ◌≤◌, ◌^◌, Ok, Err, IfErr, IfOk, false, map, option_map, true};
ghost use Rattle.saga_fleet.specs.Limits.{max_record};
ghost use Rattle.saga_tool.specs.Command.{IsCommand};
ghost use Rattle.saga_tool.specs.Limits.{max_number};
ghost use Rattle.saga_tool.specs.Responses.{IsAlone};
ghost use Rattle.saga_tool.specs.Program.{AuditsBy, AuditsRecord, record_gives, IsUnreadable, ChecksFiles, PlansFiles, DrawsDefinition, DrawsCase, DrawsAnswer, RunsFiles, IsFree, IsHeld, IsLocked, AuditsFiles, DrivesFiles, DrivesBy, ShowsFiles, IsOptional, IsOptionalUnreadable, CommandReplies, Ends, StopsBy};

use crate::arguments::Given;
use crate::files::{Unread, misused, text_of, texts_for, texts_of, unreadable};
use crate::forms::Name;
use crate::outside::{Locked, Outside};
use crate::records::judge_record;
use crate::responses::{Response, alone, log_for};
use crate::words::Words;
use saga_fleet::MAX_RECORD;
use saga_script::MAX_SCRIPT;
use saga_serve::{FileFault, drive_lines, drive_texts};
use saga_text::MAX_DEFINITION;
use saga_texts::{
    MAX_CERTIFICATE, MAX_LOG, Output, RunOutput, Scene, audit_text, check_text, draw_text,
    plan_text, run_text,
};
use std::alloc::{AllocError, Global};
use std::sync::Wait;
use std::thread::Threads;

const LINES_WITH_LOG: &str = "error: the argument '--lines' cannot be used with '--log <F>'";

const FLEET_WITH_DEFINITIONS: &str = "error: the argument '--fleet' cannot be used with '[DEF]...'";

const FROM_WITHOUT_LINES: &str =
    "error: the argument '--from <F>' cannot be used without '--lines'";

fn check<W: Outside>(
    outside: &W,
    alloc: Global,
    definition: &str,
    case: &str,
    answer: &str,
) -> Result<Response, Unread>
    ensures { Ends (ChecksFiles (W.world outside.now).file_gives definition.now case.now answer.now)
        result }
{
    let definition = text_of(outside, alloc, definition, MAX_DEFINITION)?;
    let case = text_of(outside, alloc, case, MAX_CERTIFICATE)?;
    let answer = text_of(outside, alloc, answer, MAX_CERTIFICATE)?;
    Ok(alone(check_text(alloc, &definition, &case, &answer)?))
}

fn plan<W: Outside>(
    outside: &W,
    alloc: Global,
    definition: &str,
    case: &str,
) -> Result<Response, Unread>
    ensures { Ends (PlansFiles (W.world outside.now).file_gives definition.now case.now) result }
{
    let definition = text_of(outside, alloc, definition, MAX_DEFINITION)?;
    let case = text_of(outside, alloc, case, MAX_CERTIFICATE)?;
    Ok(alone(plan_text(alloc, &definition, &case)?))
}

/// Draws a definition.
fn draw<W: Outside>(outside: &W, alloc: Global, definition: &str) -> Result<Response, Unread>
    ensures { Ends (DrawsDefinition (W.world outside.now).file_gives definition.now) result }
{
    let definition = text_of(outside, alloc, definition, MAX_DEFINITION)?;
    Ok(alone(draw_text(alloc, &definition, Scene::Definition)?))
}

/// Draws a definition with the states of a case.
fn draw_case<W: Outside>(
    outside: &W,
    alloc: Global,
    definition: &str,
    case: &str,
) -> Result<Response, Unread>
    ensures { Ends (DrawsCase (W.world outside.now).file_gives definition.now case.now) result }
{
    let definition = text_of(outside, alloc, definition, MAX_DEFINITION)?;
    let case = text_of(outside, alloc, case, MAX_CERTIFICATE)?;
    Ok(alone(draw_text(alloc, &definition, Scene::Case(&case))?))
}

/// Draws a definition with the states of a case and the marks of an answer.
fn draw_answer<W: Outside>(
    outside: &W,
    alloc: Global,
    definition: &str,
    case: &str,
    answer: &str,
) -> Result<Response, Unread>
    ensures { Ends (DrawsAnswer (W.world outside.now).file_gives definition.now case.now answer.now)
        result }
{
    let definition = text_of(outside, alloc, definition, MAX_DEFINITION)?;
    let case = text_of(outside, alloc, case, MAX_CERTIFICATE)?;
    let answer = text_of(outside, alloc, answer, MAX_CERTIFICATE)?;
    Ok(alone(draw_text(alloc, &definition, Scene::Answer(&case, &answer))?))
}

/// The texts as slices.
fn slices_of<'a>(alloc: Global, texts: &'a [Vec<u8>]) -> Result<Vec<&'a [u8]>, AllocError>
    ensures { IfOk result
        (λ slices. map (λ t. t.now) slices.items ≡ map (λ t. t.items) texts.entry.now) }
{
    let mut slices = Vec::new(alloc);
    for text in texts {
        slices.push(text.as_slice())?;
    }
    Ok(slices)
}

fn audit<R: Threads + Wait + Sync, W: Outside>(
    rt: &R,
    outside: &W,
    alloc: Global,
    log: &str,
    definitions: &[&str],
) -> Result<Response, Unread>
    ensures { Ends (AuditsFiles (W.world outside.now).file_gives log.now
        (map (λ s. s.now) definitions.now)) result }
{
    let history = text_of(outside, alloc, log, MAX_LOG)?;
    let texts = texts_for(outside, alloc, Some(log), definitions)?;
    let definitions = slices_of(alloc, &texts)?;
    Ok(alone(audit_text(rt, alloc, &history, &definitions)?))
}

/// The text of standard input, up to one byte past the limit of a record. If reading fails, the message names the path.
fn input_of<W: Outside>(outside: &W, alloc: Global, path: &str) -> Result<Vec<u8>, Unread>
    ensures text { IfOk result (λ text.
        (W.world outside.now).input_gives max_record (Ok text.items)) }
    ensures stop { IfErr result (StopsBy (λ response.
        (W.world outside.now).input_gives max_record (Err FileFault.Unreadable)
        × IsAlone (IsUnreadable path.now) response)) }
{
    match outside.read_input(alloc, MAX_RECORD) {
        Ok(text) => Ok(text),
        Err(FileFault::OutOfMemory) => Err(Unread::OutOfMemory),
        Err(FileFault::Unreadable) => Err(Unread::Unreadable(unreadable(alloc, path)?)),
    }
}

/// The text of a record, up to one byte past its limit. It is read from a file, or from standard input if the path is
/// `-`.
fn record_of<W: Outside>(outside: &W, alloc: Global, path: &str) -> Result<Vec<u8>, Unread>
    ensures text { IfOk result (λ text.
        record_gives (W.world outside.now) path.now max_record (Ok text.items)) }
    ensures stop { IfErr result (StopsBy (λ response.
        record_gives (W.world outside.now) path.now max_record (Err FileFault.Unreadable)
        × IsAlone (IsUnreadable path.now) response)) }
{
    if path == "-" {
        input_of(outside, alloc, path)
    } else {
        text_of(outside, alloc, path, MAX_RECORD)
    }
}

fn audit_fleet<W: Outside>(outside: &W, alloc: Global, path: &str) -> Result<Response, Unread>
    ensures { Ends (AuditsRecord (W.world outside.now) path.now) result }
{
    let text = record_of(outside, alloc, path)?;
    Ok(alone(judge_record(alloc, &text)?))
}

/// The response to the command `audit`. The flag says whether the file is a record of many nodes.
#[tactic(auto, using(crate::proofs::ReplyLemmas::log_audited, crate::proofs::ReplyLemmas::record_audited))]
fn audit_by<R: Threads + Wait + Sync, W: Outside>(
    rt: &R,
    outside: &W,
    alloc: Global,
    fleet: bool,
    log: &str,
    definitions: &[&str],
) -> Result<Response, Unread>
    ensures { Ends (AuditsBy (W.world outside.now) fleet log.now
        (map (λ s. s.now) definitions.now)) result }
{
    if !fleet {
        return audit(rt, outside, alloc, log, definitions);
    }
    if definitions.is_empty() {
        audit_fleet(outside, alloc, log)
    } else {
        Ok(alone(misused(alloc, FLEET_WITH_DEFINITIONS)?))
    }
}

/// The text of an optional file. Without a path the text is empty.
fn text_if_any<W: Outside>(
    outside: &W,
    alloc: Global,
    path: Option<&str>,
    limit: usize,
) -> Result<Vec<u8>, Unread>
    requires { limit < 2 ^ 63 }
    ensures text { IfOk result
        (λ text. IsOptional (W.world outside.now).file_gives
        (option_map (λ s. s.now) path.entry) limit text.items) }
    ensures stop { IfErr result
        (StopsBy
        (IsOptionalUnreadable (W.world outside.now).file_gives
        (option_map (λ s. s.now) path.entry) limit)) }
{
    match path {
        Some(path) => text_of(outside, alloc, path, limit),
        None => Ok(Vec::new(alloc)),
    }
}

/// Locks the log of a run, if there is one. Returns false if another process has locked the log.
fn may_log<W: Outside>(outside: &W, log: Option<&str>, held: &mut Option<W::Held>) -> bool
    ensures free { result ≡ true
        → IsFree (W.world outside.now) (option_map (λ s. s.now) log.entry) }
    ensures taken { result ≡ false
        → IsHeld (W.world outside.now) (option_map (λ s. s.now) log.entry) }
{
    let Some(path) = log else {
        return true;
    };
    match outside.claim(path) {
        Ok(claimed) => {
            *held = claimed;
            true
        }
        Err(Locked) => false,
    }
}

/// The output if another process has locked the log.
fn locked(alloc: Global) -> Result<Output, AllocError>
    ensures { IfOk result IsLocked }
{
    Ok(Output {
        out: String::new(alloc),
        err: String::from_str(alloc, "sagas: log: locked\n")?,
        status: 4,
    })
}

/// The response to the command `run`. The log is locked before anything is executed.
fn run_sagas<R: Threads + Wait + Sync, W: Outside>(
    rt: &R,
    outside: &W,
    alloc: Global,
    given: &Given<'_>,
    held: &mut Option<W::Held>,
) -> Result<Response, Unread>
    requires workers { (1 ≤ given.now.workers) × (given.now.workers ≤ max_number) }
    requires shards { (1 ≤ given.now.shards) × (given.now.shards ≤ max_number) }
    ensures { Ends (RunsFiles (W.world outside.now)
        (option_map (λ s. s.now) given.now.script) (map (λ s. s.now) given.now.files.items)
        given.now.shards (option_map (λ s. s.now) given.now.log)) result }
{
    let script = text_if_any(outside, alloc, given.script, MAX_SCRIPT)?;
    let texts = texts_of(outside, alloc, &given.files, MAX_DEFINITION)?;
    let definitions = slices_of(alloc, &texts)?;
    if !may_log(outside, given.log, held) {
        return Ok(alone(locked(alloc)?));
    }
    let workers = given.workers as u32;
    let shards = given.shards as u32;
    let RunOutput { output, log } = run_text(rt, alloc, &definitions, &script, workers, shards)?;
    Ok(Response {
        output,
        log: log_for(alloc, given.log, log)?,
    })
}

/// Runs the command `drive` with the options that were given. The output is the last message.
fn drive_sagas<R: Wait, W: Outside>(
    rt: &R,
    outside: &W,
    alloc: Global,
    given: &Given<'_>,
) -> Result<Response, Unread>
    ensures { Ends (DrivesFiles (W.world outside.now) (option_map (λ s. s.now) given.now.log)
        (map (λ s. s.now) given.now.files.items)) result }
{
    let texts = texts_for(outside, alloc, given.log, &given.files)?;
    let definitions = slices_of(alloc, &texts)?;
    let output = drive_texts(rt, outside.drive(), alloc, &definitions, given.log)?;
    Ok(alone(output))
}

/// Runs `drive --lines`, for a program that writes the log itself. The output is the last message.
fn show_sagas<R: Wait, W: Outside>(
    rt: &R,
    outside: &W,
    alloc: Global,
    given: &Given<'_>,
) -> Result<Response, Unread>
    ensures { Ends (ShowsFiles (W.world outside.now) (option_map (λ s. s.now) given.now.from)
        (map (λ s. s.now) given.now.files.items)) result }
{
    let texts = texts_for(outside, alloc, None, &given.files)?;
    let definitions = slices_of(alloc, &texts)?;
    let text = text_if_any(outside, alloc, given.from, MAX_LOG)?;
    let output = drive_lines(rt, outside.drive(), alloc, &definitions, text)?;
    Ok(alone(output))
}

/// The response to the command `drive`.
fn drive<R: Wait, W: Outside>(
    rt: &R,
    outside: &W,
    alloc: Global,
    given: &Given<'_>,
) -> Result<Response, Unread>
    ensures { Ends (DrivesBy (W.world outside.now) given.now.lines
        (option_map (λ s. s.now) given.now.log) (option_map (λ s. s.now) given.now.from)
        (map (λ s. s.now) given.now.files.items)) result }
{
    match (given.lines, given.log, given.from) {
        (true, Some(_), _) => Ok(alone(misused(alloc, LINES_WITH_LOG)?)),
        (true, None, _) => show_sagas(rt, outside, alloc, given),
        (false, _, Some(_)) => Ok(alone(misused(alloc, FROM_WITHOUT_LINES)?)),
        (false, _, None) => drive_sagas(rt, outside, alloc, given),
    }
}

/// Returns the response to a command.
pub fn on_command<R: Threads + Wait + Sync, W: Outside>(
    rt: &R,
    outside: &W,
    alloc: Global,
    found: &Words<'_>,
    held: &mut Option<W::Held>,
) -> Result<Response, Unread>
    requires { (words : _) × IsCommand words found.now }
    ensures { Ends (CommandReplies (W.world outside.now) found.now.given found.now.name
        (map (λ s. s.now) found.now.given.files.items)) result }
{
    match (found.name, found.given.files.as_slice()) {
        (Name::Check, [definition, case, answer]) => {
            check(outside, alloc, definition, case, answer)
        }
        (Name::Plan, [definition, case]) => plan(outside, alloc, definition, case),
        (Name::Draw, [definition]) => draw(outside, alloc, definition),
        (Name::Draw, [definition, case]) => draw_case(outside, alloc, definition, case),
        (Name::Draw, [definition, case, answer]) => {
            draw_answer(outside, alloc, definition, case, answer)
        }
        (Name::Run, _) => run_sagas(rt, outside, alloc, &found.given, held),
        (Name::Drive, _) => drive(rt, outside, alloc, &found.given),
        (Name::Audit, [log, definitions @ ..]) => {
            audit_by(rt, outside, alloc, found.given.fleet, log, definitions)
        }
        _ => unreachable!(),
    }
}
