//! Parsing of the command line with `clap`.
ghost use Rattle.std.specs.Prelude.{◌≡◌, [], IfErr, IfOk, map};
ghost use Rattle.clap.specs.Words.{app_of};
ghost use Rattle.saga_tool.specs.Command.{IsCommand, IsTaken, IsMadeOf, IsWordsFault, IsOther, may_be_option, sagas_app};

use crate::arguments::{Given, STATUSES, read_by};
use crate::forms::{Form, Kind, NAMES, Name, form_of, named};
use clap::error::ErrorKind;
use clap::{Arg, ArgAction, Command, Error};
use std::alloc::{AllocError, Global};
use std::convert::From;

const VERSION: &str = "0.3.0";

const ABOUT: &str =
    "Coordinates sagas: runs them, finds the cheapest way to end a saga in which a step has failed, judges such plans, and draws them

Without words, a definition, a case and an answer are read from standard input, with lines --- between them, and judged";

const NO_SUCH_COMMAND: &str = "no such command";

/// A command with its parsed arguments.
#[derive(Debug, Drop)]
pub struct Words<'a> {
    pub name: Name,
    pub given: Given<'a>,
}

/// Why words give no command: the error of `clap`, by its kind.
#[derive(Drop)]
pub enum WordsFault {
    /// A usage error, with the text for standard error.
    Usage(Error),
    /// A request for help or the version, with the text for standard output.
    Help(Error),
    /// A memory allocation failed.
    OutOfMemory,
}

impl From<Error> for WordsFault {
    ghost from_gives = { IsMadeOf };

    fn from(error: Error) -> WordsFault {
        match error.kind() {
            ErrorKind::OutOfMemory => WordsFault::OutOfMemory,
            ErrorKind::DisplayHelp | ErrorKind::DisplayVersion => WordsFault::Help(error),
            _ => WordsFault::Usage(error),
        }
    }
}

/// Appends the help line of a command: its usage and its description.
fn push_line(lines: &mut String, form: &Form<'_>) -> Result<(), AllocError> {
    lines.push_str(form.word)?;
    for parameter in form.parameters {
        match parameter.kind {
            Kind::Files => {
                lines.push_str(" [")?;
                lines.push_str(parameter.shown)?;
                lines.push_str("..]")?;
            }
            Kind::File => {
                lines.push_str(" ")?;
                lines.push_str(parameter.shown)?;
            }
            Kind::Optional => {
                lines.push_str(" [")?;
                lines.push_str(parameter.shown)?;
                lines.push_str("]")?;
            }
            Kind::Flag => {
                lines.push_str(" [--")?;
                lines.push_str(parameter.name)?;
                lines.push_str("]")?;
            }
            Kind::Path | Kind::Number => {
                lines.push_str(" [--")?;
                lines.push_str(parameter.name)?;
                lines.push_str(" ")?;
                lines.push_str(parameter.shown)?;
                lines.push_str("]")?;
            }
        }
    }
    lines.push_str(": ")?;
    lines.push_str(form.brief)?;
    lines.push_str("\n")
}

/// The help lines of all commands.
fn commands(alloc: Global) -> Result<String, AllocError> {
    let mut lines = String::new(alloc);
    for name in &NAMES {
        push_line(&mut lines, &form_of(*name))?;
    }
    lines.push_str("COMMAND --help: more of it")?;
    Ok(lines)
}

/// The `clap` command of the program, which requires one of its commands.
fn sagas<'a>(alloc: Global, commands: &'a str) -> Result<Command<'a>, AllocError>
    ensures { IfOk result (λ command. app_of command ≡ sagas_app) }
{
    let command = Arg::new(alloc, "COMMAND")
        .required(true)
        .action(ArgAction::Set)
        .help(commands);
    Command::new(alloc, "sagas")
        .no_binary_name(true)
        .version(VERSION)
        .about(ABOUT)
        .after_help(STATUSES)
        .arg(command)
}

/// Returns whether there is no word, or the word starts with a hyphen.
fn may_be_option(first: &[&str]) -> bool
    ensures { result ≡ may_be_option (map (λ s. s.now) first.now) }
{
    match first {
        [] => true,
        [word, ..] => word.starts_with("-"),
    }
}

/// The error if no command is named: there is no word, or the first word asks for help or the version, or it is not the
/// name of a command.
fn without_command(alloc: Global, first: &[&str]) -> Result<Error, AllocError>
    ensures { IfOk result (λ error. IsOther (map (λ s. s.now) first.now) error) }
{
    let commands = commands(alloc)?;
    // with the lifetime of the list
    let first: &[&str] = first;
    let mut sagas = sagas(alloc, commands.as_str())?;
    if !may_be_option(first) {
        return sagas.error(ErrorKind::InvalidSubcommand, NO_SUCH_COMMAND);
    }
    match sagas.try_get_matches_from_mut(first) {
        Err(error) => Ok(error),
        Ok(_) => sagas.error(ErrorKind::InvalidSubcommand, NO_SUCH_COMMAND),
    }
}

/// Parses the words after the program's name. The first word names the command. `clap` parses the others as its files
/// and options. `--workers` and `--shards` are 1 by default.
pub fn read_words<'a>(alloc: Global, words: &'a [&'a str]) -> Result<Words<'a>, WordsFault>
    ensures command { IfOk result (IsCommand (map (λ s. s.now) words.entry.now)) }
    ensures fault { IfErr result (IsWordsFault (map (λ s. s.now) words.entry.now)) }
    ensures accepts { IfErr result (λ fault.
        IsTaken (map (λ s. s.now) words.entry.now) → fault ≡ WordsFault.OutOfMemory) }
{
    if let Some((first, rest)) = words.split_first() {
        if let Some(name) = named(first) {
            let form = form_of(name);
            let given = read_by(alloc, &form, rest)?;
            return Ok(Words { name, given });
        }
    }
    let first = if words.is_empty() { words } else { &words[..1] };
    match without_command(alloc, first) {
        Ok(error) => Err(WordsFault::from(error)),
        Err(_) => Err(WordsFault::OutOfMemory),
    }
}
