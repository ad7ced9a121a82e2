//! Shows a response: writes to standard output, to the file of the log, and to standard error.
ghost use Rattle.std.specs.Prelude.{◌≡◌, ◌≢◌, [], IfOk, false, option_map, true};
ghost use Rattle.std.specs.String.{string_bytes};
ghost use Rattle.saga_tool.specs.Program.{IsPrinted, IsUnprinted, WritesBut, IsShown};

use crate::outside::Outside;
use crate::responses::Response;
use saga_texts::Output;
use std::alloc::{AllocError, Global};

/// Prints a text that is not empty. Returns false if standard output cannot be written.
fn print<W: Outside>(outside: &W, text: &str) -> bool
    ensures done { result ≡ true → IsPrinted (W.world outside.now) text.now }
    ensures failed { result ≡ false → IsUnprinted (W.world outside.now) text.now }
{
    text.is_empty() || outside.print(text)
}

/// Prints the text of a response to standard output, and then writes its log. Returns the path of the first that cannot
/// be written. This path is `-` for standard output, and then no log is written.
fn write<'a, W: Outside>(
    outside: &W,
    response: &'a Response,
    held: &mut Option<W::Held>,
) -> Option<&'a str>
    ensures { WritesBut (W.world outside.now) response.entry.now (option_map (λ s. s.now) result) }
{
    if !print(outside, response.output.out.as_str()) {
        return Some("-");
    }
    let log = response.log.as_ref()?;
    if outside.write_log(held, log.path.as_str(), log.text.as_str()) {
        None
    } else {
        Some(log.path.as_str())
    }
}

/// Returns whether an output has a line for standard error.
fn has_line(output: &Output) -> bool
    ensures some { result ≡ true → string_bytes output.now.err ≢ [] }
    ensures none { result ≡ false → string_bytes output.now.err ≡ [] }
{
    !output.err.is_empty()
}

/// Shows a response. First its text is printed to standard output, then its log is written. Then at most one line goes
/// to standard error: the line of the output, or a message about what cannot be written. Returns the status.
pub fn show<W: Outside>(
    outside: &W,
    alloc: Global,
    response: &Response,
    held: &mut Option<W::Held>,
) -> Result<u8, AllocError>
    ensures { IfOk result (IsShown (W.world outside.now) response.now) }
{
    let unwritten = write(outside, response, held);
    let output = &response.output;
    if has_line(output) {
        outside.complain(output.err.as_str());
        return Ok(output.status);
    }
    match unwritten {
        None => Ok(output.status),
        Some(path) => {
            outside.complain(format!(in alloc; "sagas: cannot write {path}\n")?.as_str());
            Ok(4)
        }
    }
}
