//! Why a session cannot begin from definitions and a log, and the message for it, which is that of `sagas drive`.
ghost use Rattle.std.specs.Prelude.{◌≡◌, [], IfOk, string_bytes};
ghost use Rattle.saga_c.specs.Faults as spec;
ghost use Rattle.saga_texts.specs.Outputs.{IsOutputWith};

use saga_core::ReplayRefusal;
use saga_drive::RestartRefusal;
use saga_json::JsonFault;
use saga_text::TextFault;
use saga_texts::{Output, ShelfFault, numbered_line};
use std::alloc::{AllocError, AllocFailed, Global};
use std::convert::From;

/// Why a coordinator cannot be opened.
#[derive(Debug, Drop)]
pub enum Fault {
    TooManyDefinitions,
    /// The index of the first definition with a fault, counted from 0.
    Definition { place: usize, why: TextFault },
    LogTooLong,
    /// The log has lines and does not start with the header.
    NoHeader,
    /// The number of the first invalid line of the log, counted from 1.
    Line { line: usize, why: JsonFault },
    /// A book cannot continue from the events of the log.
    History(ReplayRefusal),
    OutOfMemory,
}

impl<T: Drop> From<AllocFailed<T>> for Fault {
    ghost use Rattle.std.specs.Prelude.{◌≡◌};
    ghost use Rattle.saga_c.specs.declared.faults.Fault.TheVariants.{OutOfMemory};

    ghost from_gives = { λ _ fault. fault ≡ OutOfMemory };

    fn from(_: AllocFailed<T>) -> Fault {
        Fault::OutOfMemory
    }
}

impl From<AllocError> for Fault {
    ghost use Rattle.std.specs.Prelude.{◌≡◌};
    ghost use Rattle.saga_c.specs.declared.faults.Fault.TheVariants.{OutOfMemory};

    ghost from_gives = { λ _ fault. fault ≡ OutOfMemory };

    fn from(_: AllocError) -> Fault {
        Fault::OutOfMemory
    }
}

/// Returns the fault for texts that do not give a shelf.
pub fn fault_of_shelf(why: ShelfFault) -> Fault
    ensures { result ≡ spec.fault_of_shelf why }
{
    match why {
        ShelfFault::Definition { place, why } => Fault::Definition { place, why },
        ShelfFault::OutOfMemory => Fault::OutOfMemory,
    }
}

/// Returns the fault for a log that does not give a book.
pub fn fault_of_restart(why: RestartRefusal) -> Fault
    ensures { result ≡ spec.fault_of_restart why }
{
    match why {
        RestartRefusal::NoHeader => Fault::NoHeader,
        RestartRefusal::BadLine { line, why } => Fault::Line { line, why },
        RestartRefusal::History(why) => Fault::History(why),
        RestartRefusal::OutOfMemory => Fault::OutOfMemory,
    }
}

/// Returns a message with a word for the event at an index.
fn place_line(alloc: Global, place: usize, word: &str) -> Result<String, AllocError>
    ensures { IfOk result (λ text. string_bytes text ≡ spec.place_line place word.now) }
{
    numbered_line(alloc, "sagas: log: no ", place, " ", word)
}

/// Returns the message that says why a book cannot continue from the events of a log.
fn history_line(alloc: Global, why: ReplayRefusal) -> Result<String, AllocError>
    ensures { IfOk result (λ text. string_bytes text ≡ spec.history_line why) }
{
    match why {
        ReplayRefusal::NotLegal { position, reason } => place_line(alloc, position, reason.word()),
        ReplayRefusal::NotNumbered { position } => place_line(alloc, position, "not-numbered"),
        ReplayRefusal::Full { position } => place_line(alloc, position, "full"),
        ReplayRefusal::OutOfMemory => Err(AllocError),
    }
}

/// Returns the message for a fault. It is empty for lack of memory.
fn fault_line(alloc: Global, fault: &Fault) -> Result<String, AllocError>
    ensures { IfOk result (λ text. string_bytes text ≡ spec.fault_line fault.now) }
{
    match fault {
        Fault::TooManyDefinitions => String::from_str(alloc, "sagas: too many definitions\n"),
        Fault::Definition { place, why } => {
            numbered_line(alloc, "sagas: definition ", *place, ": ", why.word())
        }
        Fault::LogTooLong => String::from_str(alloc, "sagas: log: too-long\n"),
        Fault::NoHeader => String::from_str(alloc, "sagas: log: no-header\n"),
        Fault::Line { line, why } => {
            numbered_line(alloc, "sagas: log: line ", *line, ": ", why.word())
        }
        Fault::History(why) => history_line(alloc, *why),
        Fault::OutOfMemory => Err(AllocError),
    }
}

/// Returns the output for a fault.
pub fn output_of_fault(alloc: Global, fault: &Fault) -> Result<Output, AllocError>
    ensures { IfOk result (IsOutputWith [] (spec.fault_line fault.now) 3) }
{
    let err = fault_line(alloc, fault)?;
    Ok(Output {
        out: String::new(alloc),
        err,
        status: 3,
    })
}
