//! How a drive ends, and its output at the end.
ghost use Rattle.std.specs.Prelude.{◌≡◌, ◌++◌, [], IfOk, option_map};
ghost use Rattle.std.specs.String.{string_bytes};
ghost use Rattle.saga_serve.specs.Drives.{cut_line, err_of, history_line, path_of, place_line, status_of, suffix_of};
ghost use Rattle.saga_texts.specs.Lines.{line_feed};
ghost use Rattle.saga_texts.specs.Outputs.{IsOutputWith};

use saga_core::ReplayRefusal;
use saga_json::JsonFault;
use saga_text::TextFault;
use saga_texts::{Output, numbered_line};
use std::alloc::{AllocError, Global};

/// A file or stream that a drive reads or writes.
#[derive(Clone, Copy, Debug, PartialEq, Eq)]
pub enum Stream {
    /// Standard input or standard output.
    Standard,
    Log,
    /// The definitions file beside the log.
    Beside,
}

/// How a drive ends.
#[derive(Debug, Drop)]
pub enum Ending {
    /// Standard input ended.
    Ended,
    TooManyDefinitions,
    /// The index, from 0, of the first definition with an error, and its error.
    Definition { place: usize, why: TextFault },
    LogTooLong,
    /// The first index, from 0, at which the definitions differ from those that are stored beside
    /// the log.
    OtherDefinition(usize),
    /// The file beside the log is not a definitions file.
    BadDefinitions,
    /// The log has lines and does not start with the header.
    NoHeader,
    /// The number, from 1, of the first invalid line of the log, and its error.
    Line { line: usize, why: JsonFault },
    /// A book cannot continue from the events of the log.
    History(ReplayRefusal),
    /// Another process holds the log.
    Locked,
    Unreadable(Stream),
    Unwritable(Stream),
}

/// Returns the path of a stream, as messages show it.
fn path_of<'a>(log: Option<&'a str>, stream: Stream) -> &'a str
    ensures { result.now ≡ path_of (option_map (λ s. s.now) log.entry) stream }
{
    match (log, stream) {
        (Some(path), Stream::Log | Stream::Beside) => path,
        _ => "-",
    }
}

/// Returns the suffix that messages show after the path.
fn suffix_of(stream: Stream) -> &'static str
    ensures { result.now ≡ suffix_of stream }
{
    match stream {
        Stream::Beside => ".definitions",
        _ => "",
    }
}

/// Makes a message about a stream.
fn stream_line(
    alloc: Global,
    start: &str,
    log: Option<&str>,
    stream: Stream,
) -> Result<String, AllocError>
    ensures { IfOk result (λ text. string_bytes text
        ≡ start.now ++ path_of (option_map (λ s. s.now) log.entry) stream ++ suffix_of stream ++ line_feed) }
{
    let mut line = String::from_str(alloc, start)?;
    line.push_str(path_of(log, stream))?;
    line.push_str(suffix_of(stream))?;
    line.push_str("\n")?;
    Ok(line)
}

/// Makes a message with a word for the event at an index.
fn place_line(alloc: Global, place: usize, word: &str) -> Result<String, AllocError>
    ensures { IfOk result (λ text. string_bytes text ≡ place_line place word.now) }
{
    numbered_line(alloc, "sagas: log: no ", place, " ", word)
}

/// Makes the message that says why a book cannot continue from the events of a log.
fn history_line(alloc: Global, why: ReplayRefusal) -> Result<String, AllocError>
    ensures { IfOk result (λ text. string_bytes text ≡ history_line why) }
{
    match why {
        ReplayRefusal::NotLegal { position, reason } => place_line(alloc, position, reason.word()),
        ReplayRefusal::NotNumbered { position } => place_line(alloc, position, "not-numbered"),
        ReplayRefusal::Full { position } => place_line(alloc, position, "full"),
        ReplayRefusal::OutOfMemory => Ok(String::new(alloc)),
    }
}

/// Makes the message that says how many bytes were removed from a log.
pub fn cut_line(alloc: Global, count: usize) -> Result<String, AllocError>
    ensures { IfOk result (λ text. string_bytes text ≡ cut_line count) }
{
    numbered_line(
        alloc,
        "sagas: log: cut line taken away: ",
        count,
        " ",
        "bytes",
    )
}

fn err(alloc: Global, log: Option<&str>, ending: &Ending) -> Result<String, AllocError>
    ensures { IfOk result (λ text. string_bytes text
        ≡ err_of (option_map (λ s. s.now) log.entry) ending.now) }
{
    match ending {
        Ending::Ended => Ok(String::new(alloc)),
        Ending::TooManyDefinitions => String::from_str(alloc, "sagas: too many definitions\n"),
        Ending::Definition { place, why } => {
            numbered_line(alloc, "sagas: definition ", *place, ": ", why.word())
        }
        Ending::LogTooLong => String::from_str(alloc, "sagas: log: too-long\n"),
        Ending::OtherDefinition(place) => {
            format!(in alloc; "sagas: log: other-definition {place}\n")
        }
        Ending::BadDefinitions => String::from_str(alloc, "sagas: log: bad-definitions\n"),
        Ending::NoHeader => String::from_str(alloc, "sagas: log: no-header\n"),
        Ending::Line { line, why } => {
            numbered_line(alloc, "sagas: log: line ", *line, ": ", why.word())
        }
        Ending::History(why) => history_line(alloc, *why),
        Ending::Locked => String::from_str(alloc, "sagas: log: locked\n"),
        Ending::Unreadable(stream) => stream_line(alloc, "sagas: cannot read ", log, *stream),
        Ending::Unwritable(stream) => stream_line(alloc, "sagas: cannot write ", log, *stream),
    }
}

fn status(ending: &Ending) -> u8
    ensures { result ≡ status_of ending.now }
{
    match ending {
        Ending::Ended => 0,
        Ending::Locked | Ending::Unreadable(_) | Ending::Unwritable(_) => 4,
        _ => 3,
    }
}

/// Returns the output at the end of a drive: nothing on standard output, and at most one line on
/// standard error.
pub fn output_of_drive(
    alloc: Global,
    log: Option<&str>,
    ending: &Ending,
) -> Result<Output, AllocError>
    ensures { IfOk result (IsOutputWith [] (err_of (option_map (λ s. s.now) log.entry) ending.now)
        (status_of ending.now)) }
{
    Ok(Output {
        out: String::new(alloc),
        err: err(alloc, log, ending)?,
        status: status(ending),
    })
}
