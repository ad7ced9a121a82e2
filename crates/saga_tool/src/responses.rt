//! The response of the program to arguments: an output, and the log of a run with the path of its file.
ghost use Rattle.std.specs.Prelude.{◌≡◌, IfOk, option_map};
ghost use Rattle.std.specs.String.{string_bytes};
ghost use Rattle.saga_tool.specs.Responses.{alone, IsLogFor};

use saga_texts::Output;
use std::alloc::{AllocError, Global};

/// A log, and the path of its file.
#[derive(Debug, Drop)]
pub struct Log {
    pub path: String,
    pub text: String,
}

/// An output, and the log that is written after the text of the output is printed.
#[derive(Debug, Drop)]
pub struct Response {
    pub output: Output,
    pub log: Option<Log>,
}

/// An output without a log.
pub fn alone(output: Output) -> Response
    ensures { result ≡ alone output }
{
    Response { output, log: None }
}

/// The log with its path, if both are present.
pub fn log_for(
    alloc: Global,
    path: Option<&str>,
    text: Option<String>,
) -> Result<Option<Log>, AllocError>
    ensures { IfOk result
        (IsLogFor (option_map (λ s. s.now) path.entry) (option_map string_bytes text)) }
{
    match (path, text) {
        (Some(path), Some(text)) => Ok(Some(Log {
            path: String::from_str(alloc, path)?,
            text,
        })),
        _ => Ok(None),
    }
}
