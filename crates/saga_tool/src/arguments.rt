//! Parsing of the words after a command's name with `clap`. One parser serves all commands: the command's row in the
//! table defines its arguments.
ghost use Rattle.std.specs.Prelude.{◌≡◌, ◌≤◌, ◌++◌, [], IfErr, OnOk, IfOk, false, map, true};
ghost use Rattle.std.specs.List.{All};
ghost use Rattle.clap.specs.Words.{rule_of, app_of, rows_of, found_of, first_of, matches_of, fault_of, HasKind};
ghost use Rattle.saga_tool.specs.Forms.{rule_for, argument_of, app_by, outline_of};
ghost use Rattle.saga_tool.specs.Given.{Holds, files_by, files_in, is_set, IsNumber, has_number, IsGiven};
ghost use Rattle.saga_tool.specs.Limits.{max_number};
ghost use Rattle.saga_tool.specs.Suited.{is_suited};

use crate::forms::{Form, Kind, Parameter};
use crate::limits::MAX_NUMBER;
use clap::builder::ValueParser;
use clap::{Arg, ArgAction, ArgMatches, Command, Error};
use std::alloc::{AllocError, Global};

/// The last lines of each help text.
pub const STATUSES: &str =
    "Status: 0 a right answer, a plan, a drawing, or a run in which each saga ended; 1 a refused answer, a planned chain, or a stuck saga; 2 usage; 3 bad input; 4 a file, memory, or a run that stopped.";

/// The `clap` argument for a parameter.
fn arg_of<'a>(alloc: Global, parameter: &Parameter<'a>) -> Arg<'a>
    ensures rule { rule_of result ≡ rule_for (argument_of parameter.now) }
    ensures own { result.global ≡ false }
{
    let arg = Arg::new(alloc, parameter.name).help(parameter.help);
    let shown = parameter.shown;
    match parameter.kind {
        Kind::Flag => arg.long(parameter.name).action(ArgAction::SetTrue),
        Kind::File => arg.value_name(shown).required(true).action(ArgAction::Set),
        Kind::Optional => arg.value_name(shown).action(ArgAction::Set),
        Kind::Files => arg.value_name(shown).action(ArgAction::Append),
        Kind::Path => arg
            .value_name(shown)
            .long(parameter.name)
            .action(ArgAction::Set),
        Kind::Number => arg
            .value_name(shown)
            .long(parameter.name)
            .action(ArgAction::Set)
            .value_parser(ValueParser::unsigned(1, MAX_NUMBER))
            .default_value("1"),
    }
}

/// The `clap` command for a row. Its input is the words after the command's name.
fn command_of<'a>(alloc: Global, form: &Form<'a>) -> Result<Command<'a>, AllocError>
    ensures { IfOk result (λ command. app_of command ≡ app_by (outline_of form.now)) }
{
    let mut command = Command::new(alloc, form.title)
        .no_binary_name(true)
        .about(form.about)
        .after_help(STATUSES);
    for parameter in form.parameters {
        command = command.arg(arg_of(alloc, parameter))?;
    }
    Ok(command)
}

/// Parses words with `clap` by the arguments of a row.
fn matches_by<'a>(
    alloc: Global,
    form: &Form<'a>,
    words: &'a [&'a str],
) -> Result<ArgMatches<'a>, Error>
    requires suited { is_suited (app_by (outline_of form.now)) ≡ true }
    ensures rows { IfOk result (λ m. rows_of (found_of m)
        ≡ matches_of (app_by (outline_of form.now)) (map (λ s. s.now) words.entry.now)) }
    ensures taken { IfOk result (λ _.
        fault_of (app_by (outline_of form.now)) (map (λ s. s.now) words.entry.now) ≡ []) }
    ensures holds { IfOk result (λ m.
        All (Holds (rows_of (found_of m))) (outline_of form.now).arguments) }
    ensures kinds { IfErr result (HasKind
        (fault_of (app_by (outline_of form.now)) (map (λ s. s.now) words.entry.now))) }
{
    let mut command = command_of(alloc, form)?;
    command.try_get_matches_from_mut(words)
}

/// The result of parsing the words after a command's name.
#[derive(Debug, Drop)]
pub struct Given<'a> {
    /// The paths, in the order of the command's row.
    pub files: Vec<&'a str>,
    pub script: Option<&'a str>,
    pub log: Option<&'a str>,
    pub lines: bool,
    pub from: Option<&'a str>,
    pub fleet: bool,
    /// From 1 to 16. It is 1 if the command has no such option; the same holds for `shards`.
    pub workers: usize,
    pub shards: usize,
}

/// Adds the files of one argument from the matches.
fn push_files<'a>(
    parameter: &Parameter<'_>,
    matches: &ArgMatches<'a>,
    files: &mut Vec<&'a str>,
) -> Result<(), AllocError>
    ensures { OnOk result (map (λ s. s.now) files.new.items ≡ map (λ s. s.now) files.old.items
        ++ files_by parameter.now.kind parameter.now.name.now (rows_of (found_of matches.now))) }
{
    match parameter.kind {
        Kind::File | Kind::Optional => {
            if let Some(path) = matches.get_str(parameter.name) {
                files.push(path)?;
            }
        }
        Kind::Files => {
            if let Some(paths) = matches.get_strs(parameter.name) {
                for path in paths {
                    files.push(*path)?;
                }
            }
        }
        Kind::Flag | Kind::Path | Kind::Number => {}
    }
    Ok(())
}

/// Returns the files from the matches, in the order of the row.
fn files_of<'a>(
    alloc: Global,
    form: &Form<'_>,
    matches: &ArgMatches<'a>,
) -> Result<Vec<&'a str>, AllocError>
    ensures { IfOk result (λ files. map (λ s. s.now) files.items
        ≡ files_in (rows_of (found_of matches.now)) (outline_of form.now).arguments) }
{
    let mut files = Vec::new(alloc);
    for parameter in form.parameters {
        push_files(parameter, matches, &mut files)?;
    }
    Ok(files)
}

/// Returns whether the flag with this name is set.
fn has_flag(matches: &ArgMatches<'_>, name: &str) -> bool
    ensures { result ≡ is_set (first_of name.now (rows_of (found_of matches.now))) }
{
    match matches.get_str(name) {
        Some(text) => text == "true",
        None => false,
    }
}

/// Returns whether the row has a numeric option with this name.
fn has_number(form: &Form<'_>, name: &str) -> bool
    ensures { result ≡ has_number name.now (outline_of form.now).arguments }
{
    for parameter in form.parameters {
        if parameter.kind == Kind::Number && parameter.name == name {
            return true;
        }
    }
    false
}

/// Returns the value of the numeric option with this name, or 1 if the row has no such option.
fn number_of(form: &Form<'_>, matches: &ArgMatches<'_>, name: &str) -> usize
    requires holds { All (Holds (rows_of (found_of matches.now))) (outline_of form.now).arguments }
    ensures number { IsNumber (outline_of form.now).arguments (rows_of (found_of matches.now))
        name.now result }
    ensures within { (1 ≤ result) × (result ≤ max_number) }
{
    if !has_number(form, name) {
        return 1;
    }
    match matches.get_one::<usize>(name) {
        Some(number) => number,
        None => unreachable!(),
    }
}

/// Parses the words after a command's name, by the command's row. The precondition `suited` holds for a row if the
/// names of its arguments are distinct and none of them is `help` or `version`.
pub fn read_by<'a>(alloc: Global, form: &Form<'a>, words: &'a [&'a str]) -> Result<Given<'a>, Error>
    requires suited { is_suited (app_by (outline_of form.now)) ≡ true }
    ensures given { IfOk result
        (IsGiven (outline_of form.now) (map (λ s. s.now) words.entry.now)) }
    ensures kinds { IfErr result (HasKind
        (fault_of (app_by (outline_of form.now)) (map (λ s. s.now) words.entry.now))) }
{
    let matches = matches_by(alloc, form, words)?;
    let files = files_of(alloc, form, &matches)?;
    let script = matches.get_str("script");
    let log = matches.get_str("log");
    let lines = has_flag(&matches, "lines");
    let from = matches.get_str("from");
    let fleet = has_flag(&matches, "fleet");
    let workers = number_of(form, &matches, "workers");
    let shards = number_of(form, &matches, "shards");
    Ok(Given {
        files,
        script,
        log,
        lines,
        from,
        fleet,
        workers,
        shards,
    })
}
