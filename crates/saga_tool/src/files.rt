//! Reads the texts of files in order.
ghost use Rattle.std.specs.Prelude.{◌≡◌, ◌<◌, ◌^◌, Ok, Err, IfErr, IfOk, map, option_map};
ghost use Rattle.saga_tool.specs.Program.{IsUnreadable, AreFor, AreGiven, AreBeside, IsFirstUnreadable, IsBesideUnread, IsMisused, IsNoDefinitions, IsUnreadFor, StopsBy, IsOutOfMemory, IsResponseOf};
ghost use Rattle.saga_tool.specs.Responses.{IsAlone};

use crate::outside::Outside;
use crate::responses::{Response, alone};
use saga_serve::{FileFault, MAX_BESIDE};
use saga_text::MAX_DEFINITION;
use saga_texts::{Output, definitions_of};
use std::alloc::{AllocError, AllocFailed, Global};

const NO_DEFINITION: &str = "error: the argument '<DEF>' is required where no '--log <F>' is given";

/// Why texts could not be read: a file is unreadable, with the output that says so; or lack of memory.
#[derive(Drop)]
pub enum Unread {
    Unreadable(Response),
    OutOfMemory,
}

impl From<AllocError> for Unread {
    ghost from_gives = { IsOutOfMemory };

    fn from(_: AllocError) -> Unread {
        Unread::OutOfMemory
    }
}

impl<T: Drop> From<AllocFailed<T>> for Unread {
    ghost use Rattle.std.specs.Prelude.{◌≡◌};
    ghost use Rattle.saga_tool.specs.declared.files.Unread.TheVariants.{OutOfMemory};

    ghost from_gives = { λ _ given. given ≡ OutOfMemory };

    fn from(_: AllocFailed<T>) -> Unread {
        Unread::OutOfMemory
    }
}

/// The output if a file cannot be read.
pub fn unreadable(alloc: Global, path: &str) -> Result<Response, AllocError>
    ensures { IfOk result (IsAlone (IsUnreadable path.now)) }
{
    Ok(alone(Output {
        out: String::new(alloc),
        err: format!(in alloc; "sagas: cannot read {path}\n")?,
        status: 4,
    }))
}

/// The text of a file, up to one byte past the limit.
pub fn text_of<W: Outside>(
    outside: &W,
    alloc: Global,
    path: &str,
    limit: usize,
) -> Result<Vec<u8>, Unread>
    requires { limit < 2 ^ 63 }
    ensures text { IfOk result (λ text.
        (W.world outside.now).file_gives path.now limit (Ok text.items)) }
    ensures stop { IfErr result (StopsBy (λ response.
        (W.world outside.now).file_gives path.now limit (Err FileFault.Unreadable)
        × IsAlone (IsUnreadable path.now) response)) }
{
    match outside.read_file(alloc, path, limit) {
        Ok(text) => Ok(text),
        Err(FileFault::OutOfMemory) => Err(Unread::OutOfMemory),
        Err(FileFault::Unreadable) => Err(Unread::Unreadable(unreadable(alloc, path)?)),
    }
}

/// The texts of files, in order, each up to one byte past the limit.
pub fn texts_of<W: Outside>(
    outside: &W,
    alloc: Global,
    paths: &[&str],
    limit: usize,
) -> Result<Vec<Vec<u8>>, Unread>
    requires { limit < 2 ^ 63 }
    ensures texts { IfOk result (λ texts. AreGiven (W.world outside.now).file_gives limit
        (map (λ s. s.now) paths.now) (map (λ t. t.items) texts.items)) }
    ensures stop { IfErr result (StopsBy (IsFirstUnreadable (W.world outside.now).file_gives limit
        (map (λ s. s.now) paths.now))) }
{
    let mut texts = Vec::new(alloc);
    for path in paths {
        let text = text_of(outside, alloc, path, limit)?;
        texts.push(text)?;
    }
    Ok(texts)
}

/// The output if options conflict.
pub fn misused(alloc: Global, line: &str) -> Result<Output, AllocError>
    ensures { IfOk result (IsMisused line.now) }
{
    Ok(Output {
        out: String::new(alloc),
        err: format!(in alloc; "{line}\n")?,
        status: 2,
    })
}

/// The output if the definitions file beside a log has no definitions.
fn no_definitions(alloc: Global) -> Result<Output, AllocError>
    ensures { IfOk result IsNoDefinitions }
{
    Ok(Output {
        out: String::new(alloc),
        err: String::from_str(alloc, "sagas: log: bad-definitions\n")?,
        status: 3,
    })
}

/// Copies of the texts.
fn owned(alloc: Global, texts: &[&[u8]]) -> Result<Vec<Vec<u8>>, AllocError>
    ensures { IfOk result (λ owned. map (λ t. t.items) owned.items ≡ map (λ t. t.now) texts.now) }
{
    let mut owned = Vec::new(alloc);
    for text in texts {
        owned.push(text.to_vec(alloc)?)?;
    }
    Ok(owned)
}

/// The texts of the definitions in the file beside a log.
fn texts_beside<W: Outside>(outside: &W, alloc: Global, log: &str) -> Result<Vec<Vec<u8>>, Unread>
    ensures texts { IfOk result (λ texts. AreBeside (W.world outside.now).file_gives log.now
        (map (λ t. t.items) texts.items)) }
    ensures stop { IfErr result (StopsBy (IsBesideUnread (W.world outside.now).file_gives log.now)) }
{
    let path = format!(in alloc; "{log}.definitions")?;
    let file = text_of(outside, alloc, path.as_str(), MAX_BESIDE)?;
    let Some(stored) = definitions_of(alloc, &file)? else {
        return Err(Unread::Unreadable(alone(no_definitions(alloc)?)));
    };
    Ok(owned(alloc, &stored)?)
}

/// The texts of definitions: those of the files; or without files, those that are stored beside the log, if there is
/// one.
pub fn texts_for<W: Outside>(
    outside: &W,
    alloc: Global,
    log: Option<&str>,
    paths: &[&str],
) -> Result<Vec<Vec<u8>>, Unread>
    ensures texts { IfOk result (λ texts. AreFor (W.world outside.now).file_gives
        (option_map (λ s. s.now) log.entry) (map (λ s. s.now) paths.now)
        (map (λ t. t.items) texts.items)) }
    ensures stop { IfErr result (StopsBy (IsUnreadFor (W.world outside.now).file_gives
        (option_map (λ s. s.now) log.entry) (map (λ s. s.now) paths.now))) }
{
    if !paths.is_empty() {
        return texts_of(outside, alloc, paths, MAX_DEFINITION);
    }
    match log {
        Some(log) => texts_beside(outside, alloc, log),
        None => Err(Unread::Unreadable(alone(misused(alloc, NO_DEFINITION)?))),
    }
}

/// The response, which is also present if a file cannot be read.
pub fn settled(ended: Result<Response, Unread>) -> Result<Response, AllocError>
    ensures { IfOk result (IsResponseOf ended) }
{
    match ended {
        Ok(response) | Err(Unread::Unreadable(response)) => Ok(response),
        Err(Unread::OutOfMemory) => Err(AllocError),
    }
}
