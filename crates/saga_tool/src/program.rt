//! The program over any outside world: which texts are read and in which order, the response, and how the response is
//! shown.
ghost use Rattle.std.specs.Prelude.{◌≡◌, IfOk, map};
ghost use Rattle.std.specs.IoError.{error_kind};
ghost use Rattle.saga_tool.specs.Outside.{file_fault_of};
ghost use Rattle.saga_tool.specs.Program.{IsHelp, IsTold, RepliesToWords, RepliesToInput, Replies, ShowsResponse, IsRun, TellsOutOfMemory, TellsNoWords};
ghost use Rattle.saga_tool.specs.Responses.{IsAlone};

use crate::commands::on_command;
use crate::files::{settled, unreadable};
use crate::input::check_input;
use crate::limits::MAX_INPUT;
use crate::outside::{Outside, fault_of};
use crate::responses::{Response, alone};
use crate::showing::show;
use crate::words::{WordsFault, read_words};
use saga_serve::FileFault;
use saga_texts::Output;
use std::alloc::{AllocError, Global};
use std::io;
use std::sync::Wait;
use std::thread::Threads;

/// The output for an error of `clap`: help, or the usage error.
fn told(alloc: Global, fault: &WordsFault) -> Result<Output, AllocError>
    ensures { IfOk result (IsTold fault.now) }
{
    match fault {
        WordsFault::OutOfMemory => Err(AllocError),
        WordsFault::Help(error) => Ok(Output {
            out: format!(in alloc; "{error}")?,
            err: String::new(alloc),
            status: 0,
        }),
        WordsFault::Usage(error) => Ok(Output {
            out: String::new(alloc),
            err: format!(in alloc; "{error}")?,
            status: 2,
        }),
    }
}

/// The response to arguments.
fn on_words<'a, R: Threads + Wait + Sync, W: Outside>(
    rt: &R,
    outside: &W,
    alloc: Global,
    words: &'a [&'a str],
    held: &mut Option<W::Held>,
) -> Result<Response, AllocError>
    ensures { IfOk result
        (RepliesToWords (W.world outside.now) (map (λ s. s.now) words.entry.now)) }
{
    match read_words(alloc, words) {
        Ok(found) => settled(on_command(rt, outside, alloc, &found, held)),
        Err(fault) => Ok(alone(told(alloc, &fault)?)),
    }
}

/// The response that shows the help.
fn help<R: Threads + Wait + Sync, W: Outside>(
    rt: &R,
    outside: &W,
    alloc: Global,
    held: &mut Option<W::Held>,
) -> Result<Response, AllocError>
    ensures { IfOk result (IsAlone IsHelp) }
{
    on_words(rt, outside, alloc, ["--help"].as_slice(), held)
}

/// The response to standard input.
fn on_input<W: Outside>(outside: &W, alloc: Global) -> Result<Response, AllocError>
    ensures { IfOk result (RepliesToInput (W.world outside.now).input_gives) }
{
    match outside.read_input(alloc, MAX_INPUT) {
        Ok(input) => Ok(alone(check_input(alloc, &input)?)),
        Err(FileFault::OutOfMemory) => Err(AllocError),
        Err(FileFault::Unreadable) => unreadable(alloc, "-"),
    }
}

/// The response to the words after the program's name. It depends on the texts of the files that they name, which are
/// read in order; or it is help or a usage error. Without words, the response is that to standard input, or help if
/// standard input is a terminal. `held` gets the locked log of the run, if there is one.
pub fn respond<'a, R: Threads + Wait + Sync, W: Outside>(
    rt: &R,
    outside: &W,
    alloc: Global,
    words: &'a [&'a str],
    held: &mut Option<W::Held>,
) -> Result<Response, AllocError>
    ensures { IfOk result (Replies (W.world outside.now) (map (λ s. s.now) words.entry.now)) }
{
    if !words.is_empty() {
        on_words(rt, outside, alloc, words, held)
    } else if outside.is_terminal() {
        help(rt, outside, alloc, held)
    } else {
        on_input(outside, alloc)
    }
}

fn out_of_memory<W: Outside>(outside: &W) -> u8
    ensures { TellsOutOfMemory (W.world outside.now) result }
{
    outside.complain("sagas: out of memory\n");
    4
}

/// Computes and shows the response to the words after the program's name. Returns the status.
fn respond_and_show<'a, R: Threads + Wait + Sync, W: Outside>(
    rt: &R,
    outside: &W,
    alloc: Global,
    words: &'a [&'a str],
) -> Result<u8, AllocError>
    ensures { IfOk result (ShowsResponse (W.world outside.now) (map (λ s. s.now) words.entry.now)) }
{
    let mut held = None;
    let response = respond(rt, outside, alloc, words, &mut held)?;
    show(outside, alloc, &response, &mut held)
}

/// Computes and shows the response to the words after the program's name. Returns the exit status, also if there is a
/// lack of memory.
pub fn run<'a, R: Threads + Wait + Sync, W: Outside>(
    rt: &R,
    outside: &W,
    alloc: Global,
    words: &'a [&'a str],
) -> u8
    ensures { IsRun (W.world outside.now) (map (λ s. s.now) words.entry.now) result }
{
    match respond_and_show(rt, outside, alloc, words) {
        Ok(status) => status,
        Err(AllocError) => out_of_memory(outside),
    }
}

/// Reports why there are no words: lack of memory, or a word that is not UTF-8. Returns the status.
pub fn without_words<W: Outside>(outside: &W, error: &io::Error) -> u8
    ensures { TellsNoWords (W.world outside.now) (file_fault_of (error_kind error.now)) result }
{
    match fault_of(error) {
        FileFault::OutOfMemory => out_of_memory(outside),
        FileFault::Unreadable => {
            outside.complain("error: invalid UTF-8 was detected in one or more arguments\n");
            2
        }
    }
}
