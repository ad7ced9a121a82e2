//! The definitions file beside a log. A drive compares it with its own definitions, and makes it if
//! there is none.
ghost use Rattle.std.specs.Prelude.{◌≡◌, ◌≢◌, ◌≤◌, ◌↔◌, IfErr, IfOk, IsTrue, Ok, OnOk, Some, None, length, map};
ghost use Rattle.saga_texts.specs.Beside.{definitions_file};
ghost use Rattle.saga_serve.specs.Drives.{BesideEnds, HaltsAs, IsDefined, IsDiffering};
ghost use Rattle.saga_serve.specs.Limits.{max_beside};
ghost use Rattle.saga_texts.specs.Limits.{max_log};

use crate::endings::{Ending, Stream};
use crate::limits::MAX_BESIDE;
use crate::outside::{FileFault, Outside};
use crate::starts::halt_of;
use crate::stops::Halt;
use saga_def::Definition;
use saga_drive::restart_from;
use saga_texts::{definitions_file, definitions_of, first_other};
use std::alloc::{AllocError, Global};

fn is_same(one: &[u8], other: &[u8]) -> bool
    ensures { IsTrue result ↔ (one.now ≡ other.now) }
{
    one == other
}

/// Returns how a definitions file differs from the file of the given definitions.
fn difference(alloc: Global, found: &[u8], definitions: &[&[u8]]) -> Result<Ending, AllocError>
    requires { found.now ≢ definitions_file (map (λ t. t.now) definitions.now) }
    ensures { IfOk result (IsDiffering found.now (map (λ t. t.now) definitions.now)) }
{
    let Some(stored) = definitions_of(alloc, found)? else {
        return Ok(Ending::BadDefinitions);
    };
    match first_other(&stored, definitions) {
        Some(place) => Ok(Ending::OtherDefinition(place)),
        None => unreachable!(),
    }
}

/// Compares the definitions file that was read beside a log.
fn compare(alloc: Global, found: &[u8], definitions: &[&[u8]]) -> Result<(), Halt>
    ensures same { IfOk result (λ _. found.now ≡ definitions_file (map (λ t. t.now) definitions.now)) }
    ensures other { IfErr result (HaltsAs (IsDiffering found.now (map (λ t. t.now) definitions.now))) }
{
    let file = definitions_file(alloc, definitions)?;
    if is_same(found, &file) {
        return Ok(());
    }
    Err(Halt::Early(difference(alloc, found, definitions)?))
}

/// Makes the definitions file beside a log. `text` is the content of the log. The file is made only
/// if this content is valid for the definitions.
fn make<W: Outside>(
    outside: &W,
    alloc: Global,
    shelf: &[Definition],
    text: &[u8],
    path: &str,
    definitions: &[&[u8]],
) -> Result<(), Halt>
    requires short { length text.now ≤ max_log }
    requires none { (W.world outside.now).beside_gives path.now max_beside (Ok None) }
    ensures defined { OnOk result (IsDefined (W.world outside.now) path.now (map (λ t. t.now) definitions.now)) }
    ensures stop { IfErr result (HaltsAs (BesideEnds (W.world outside.now) path.now
        (map (λ t. t.now) definitions.now) shelf.now text.now)) }
{
    if let Err(why) = restart_from(alloc, shelf, text) {
        return Err(halt_of(why));
    }
    let file = definitions_file(alloc, definitions)?;
    if outside.make_beside(alloc, path, &file)? {
        Ok(())
    } else {
        Err(Halt::Early(Ending::Unwritable(Stream::Beside)))
    }
}

/// Ensures that the definitions are on the disk beside a log. `text` is the content of the log. If
/// there is a definitions file, it must have the same definitions. If there is none, this call
/// makes it.
pub fn define<W: Outside>(
    outside: &W,
    alloc: Global,
    shelf: &[Definition],
    text: &[u8],
    path: &str,
    definitions: &[&[u8]],
) -> Result<(), Halt>
    requires short { length text.now ≤ max_log }
    ensures defined { OnOk result (IsDefined (W.world outside.now) path.now (map (λ t. t.now) definitions.now)) }
    ensures stop { IfErr result (HaltsAs (BesideEnds (W.world outside.now) path.now
        (map (λ t. t.now) definitions.now) shelf.now text.now)) }
{
    match outside.read_beside(alloc, path, MAX_BESIDE) {
        Ok(Some(found)) => compare(alloc, &found, definitions),
        Ok(None) => make(outside, alloc, shelf, text, path, definitions),
        Err(FileFault::OutOfMemory) => Err(Halt::OutOfMemory),
        Err(FileFault::Unreadable) => Err(Halt::Early(Ending::Unreadable(Stream::Beside))),
    }
}
