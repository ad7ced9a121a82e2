//! The reader of the definitions of several texts.
ghost use Rattle.std.specs.Prelude.{◌≡◌, IfErr, IfOk, map};
ghost use Rattle.saga_texts.specs.Shelves.{AreDefinitions, IsShelfFault, at_place};

use saga_def::Definition;
use saga_text::{TextFault, read_definition};
use std::alloc::{AllocError, AllocFailed, Global};
use std::convert::From;

/// Why texts do not give a shelf.
#[derive(Debug, Drop)]
pub enum ShelfFault {
    /// The index of the first text with a fault, counted from 0, and its first fault, which is not lack of memory.
    Definition { place: usize, why: TextFault },
    OutOfMemory,
}

impl<T: Drop> From<AllocFailed<T>> for ShelfFault {
    ghost use Rattle.std.specs.Prelude.{◌≡◌};
    ghost use Rattle.saga_texts.specs.declared.shelves.ShelfFault.TheVariants.{OutOfMemory};

    ghost from_gives = { λ _ fault. fault ≡ OutOfMemory };

    fn from(_: AllocFailed<T>) -> ShelfFault {
        ShelfFault::OutOfMemory
    }
}

/// Returns the fault of the text at an index.
fn at_place(place: usize, why: TextFault) -> ShelfFault
    ensures { result ≡ at_place place why }
{
    match why {
        TextFault::OutOfMemory => ShelfFault::OutOfMemory,
        why => ShelfFault::Definition { place, why },
    }
}

/// Returns the definitions of texts, in the same order.
pub fn read_shelf(alloc: Global, texts: &[&[u8]]) -> Result<Vec<Definition>, ShelfFault>
    ensures shelf { IfOk result (λ shelf. AreDefinitions (map (λ t. t.now) texts.now) shelf.items) }
    ensures fault { IfErr result (IsShelfFault (map (λ t. t.now) texts.now)) }
{
    let mut shelf = Vec::new(alloc);
    for place in 0..texts.len() {
        match read_definition(alloc, texts[place]) {
            Ok(definition) => shelf.push(definition)?,
            Err(why) => return Err(at_place(place, why)),
        }
    }
    Ok(shelf)
}
