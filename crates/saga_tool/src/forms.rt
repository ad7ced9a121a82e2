//! The table of commands: one row for each, with its arguments and its purpose.
ghost use Rattle.std.specs.Prelude.{◌≡◌, IfNone, IfSome};
ghost use Rattle.saga_tool.specs.Forms.{outline_of, outline_for, word_for};

/// The kind of an argument.
#[derive(Clone, Copy, Debug, PartialEq, Eq)]
pub enum Kind {
    /// A required file.
    File,
    /// An optional file.
    Optional,
    /// Any number of further files.
    Files,
    /// An option without a value.
    Flag,
    /// An option with a path.
    Path,
    /// An option with a number from 1 to 16, by default 1.
    Number,
}

/// An argument of a command.
#[derive(Clone, Copy, Debug)]
pub struct Parameter<'a> {
    pub kind: Kind,
    /// The unique name of the argument. For an option, it is the text after `--`.
    pub name: &'a str,
    /// The placeholder for the value in the usage text. It is empty for a flag.
    pub shown: &'a str,
    pub help: &'a str,
}

/// The name of a command.
#[derive(Clone, Copy, Debug, PartialEq, Eq)]
pub enum Name {
    Check,
    Plan,
    Run,
    Audit,
    Draw,
    Drive,
}

/// The commands, in the order of the help text.
pub const NAMES: [Name; 6] = [
    Name::Check,
    Name::Plan,
    Name::Run,
    Name::Audit,
    Name::Draw,
    Name::Drive,
];

/// A row of the table of commands.
#[derive(Clone, Copy, Debug)]
pub struct Form<'a> {
    pub word: &'a str,
    /// The program's name and the command's name.
    pub title: &'a str,
    /// A short description of the command.
    pub brief: &'a str,
    pub about: &'a str,
    /// The parameters. Files are read in this order.
    pub parameters: &'a [Parameter<'a>],
}

const DEFINITION: Parameter<'static> = Parameter {
    kind: Kind::File,
    name: "DEF",
    shown: "DEF",
    help: "the saga's definition, a TOML file",
};

const CASE: Parameter<'static> = Parameter {
    kind: Kind::File,
    name: "CASE",
    shown: "CASE",
    help: "the states of its steps, a JSON file",
};

const ANSWER: Parameter<'static> = Parameter {
    kind: Kind::File,
    name: "ANSWER",
    shown: "ANSWER",
    help: "the plan or the chain, a JSON file",
};

/// The optional case of a command.
const CASE_IF_ANY: Parameter<'static> = Parameter {
    kind: Kind::Optional,
    ..CASE
};

const ANSWER_IF_ANY: Parameter<'static> = Parameter {
    kind: Kind::Optional,
    ..ANSWER
};

const FLEET: Parameter<'static> = Parameter {
    kind: Kind::Flag,
    name: "fleet",
    shown: "",
    help: "LOG is a record of what many nodes did to one log, and `-` is standard input; there are no definitions",
};

const LOG: Parameter<'static> = Parameter {
    kind: Kind::File,
    name: "LOG",
    shown: "LOG",
    help: "the log of a run, a JSON object a line",
};

const WORKERS: Parameter<'static> = Parameter {
    kind: Kind::Number,
    name: "workers",
    shown: "N",
    help: "how many workers, from 1 to 16",
};

const SHARDS: Parameter<'static> = Parameter {
    kind: Kind::Number,
    name: "shards",
    shown: "S",
    help: "how many books the sagas are kept in, from 1 to 16: as many as workers run best",
};

const SCRIPT: Parameter<'static> = Parameter {
    kind: Kind::Path,
    name: "script",
    shown: "F",
    help: "a file that tells how actions and compensations end; what it does not tell succeeds",
};

const WRITTEN: Parameter<'static> = Parameter {
    kind: Kind::Path,
    name: "log",
    shown: "F",
    help: "the file to write the log to, after the report is printed",
};

const PERSISTED: Parameter<'static> = Parameter {
    kind: Kind::Path,
    name: "log",
    shown: "F",
    help: "the file in which each event is kept before it is told, and from which the program goes on; F.definitions keeps the definitions",
};

const LINES: Parameter<'static> = Parameter {
    kind: Kind::Flag,
    name: "lines",
    shown: "",
    help: "print the lines of the log, each behind a `+`, before the reply that they belong to; no log is written",
};

const FROM: Parameter<'static> = Parameter {
    kind: Kind::Path,
    name: "from",
    shown: "F",
    help: "with --lines: the log from which the program goes on, which is only read",
};

const FIRST: Parameter<'static> = Parameter {
    kind: Kind::File,
    name: "DEF",
    shown: "DEF",
    help: "the first definition of the shelf, a TOML file",
};

/// Definitions of a command that may find them beside its log.
const ANY: Parameter<'static> = Parameter {
    kind: Kind::Files,
    name: "DEF",
    shown: "DEF",
    help: "the definitions of the shelf, TOML files, 64 at most; without any, those that are kept beside the log",
};

const MORE: Parameter<'static> = Parameter {
    kind: Kind::Files,
    name: "MORE",
    shown: "DEF",
    help: "the further definitions, 64 in all at most",
};

/// The row of a command.
pub fn form_of(name: Name) -> Form<'static>
    ensures word { result.word.now ≡ word_for name }
    ensures outline { outline_of result ≡ outline_for name }
{
    match name {
        Name::Check => Form {
            word: "check",
            title: "sagas check",
            brief: "judges an answer",
            about: "Judges an answer to a case: prints `least N`, `blocked`, or `no FAULT`",
            parameters: &[DEFINITION, CASE, ANSWER],
        },
        Name::Plan => Form {
            word: "plan",
            title: "sagas plan",
            brief: "makes one",
            about: "Plans how a saga shall end: prints a plan of least cost, or a chain of steps that shows that no set of steps is allowed",
            parameters: &[DEFINITION, CASE],
        },
        Name::Run => Form {
            word: "run",
            title: "sagas run",
            brief: "runs sagas by a script",
            about: "Runs each definition once, in order, as sagas 0, 1 and so on: prints how each saga and each of its steps ended",
            parameters: &[WORKERS, SHARDS, SCRIPT, WRITTEN, FIRST, MORE],
        },
        Name::Audit => Form {
            word: "audit",
            title: "sagas audit",
            brief: "judges the log of a run",
            about: "Audits the log of a run: prints `yes sagas A ended B stuck C events D`, or `no P REASON` for the event of place P, from 0, that was not allowed; with --fleet a record of many nodes: prints `yes sessions A chunks B failovers C events D`, or `no line N REASON` for the first line that was not allowed",
            parameters: &[FLEET, LOG, ANY],
        },
        Name::Draw => Form {
            word: "draw",
            title: "sagas draw",
            brief: "draws one for Graphviz",
            about: "Draws a saga: prints its steps and needs in Graphviz's language, with their states and what an answer marks where they are given, for `dot` to make a picture of",
            parameters: &[DEFINITION, CASE_IF_ANY, ANSWER_IF_ANY],
        },
        Name::Drive => Form {
            word: "drive",
            title: "sagas drive",
            brief: "drives sagas for another program",
            about: "Drives sagas for another program, which does the actions: reads one JSON request a line from standard input, and prints one output a line",
            parameters: &[PERSISTED, LINES, FROM, ANY],
        },
    }
}

/// The command with this name.
pub fn named(word: &str) -> Option<Name>
    ensures some { IfSome result (λ name. word.now ≡ word_for name) }
    ensures none { IfNone result ((name : _) → word.now ≡ word_for name → ⊥) }
{
    match word {
        "check" => Some(Name::Check),
        "plan" => Some(Name::Plan),
        "run" => Some(Name::Run),
        "audit" => Some(Name::Audit),
        "draw" => Some(Name::Draw),
        "drive" => Some(Name::Drive),
        _ => None,
    }
}
