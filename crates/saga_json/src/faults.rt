//! Why a JSON text is refused.
ghost use Rattle.std.specs.Prelude.{◌≡◌};

use std::alloc::{AllocError, AllocFailed};
use std::convert::From;
use thiserror::Error;

/// Why the text of a case, an answer, a line of a log or a request is refused. If a text has several faults, the result
/// is the first one in this list. `OutOfMemory` may replace any other result. Only an answer, alone or in a log, has
/// `Kept`, and only a case has `WrongLength` or `Busy`.
#[derive(Clone, Copy, Debug, PartialEq, Eq, Error)]
pub enum JsonFault {
    /// Bytes that are not UTF-8, or a text that `serde_json` refuses.
    #[error("no JSON")]
    NotJson,
    /// The value is not an object. Or the key that gives the kind, for example `event`, is missing or has an unknown
    /// word.
    #[error("another kind of value")]
    Kind,
    /// A key is not a key of the format.
    #[error("an unknown key")]
    UnknownKey,
    /// A key of the format is missing.
    #[error("a missing key")]
    MissingKey,
    /// A value has the wrong type, or a number is not whole, below 0 or too large.
    #[error("a value of another type")]
    BadType,
    /// The numbers in `kept` do not strictly ascend, or one is not below the length of `stand`.
    #[error("no list of kept steps")]
    Kept,
    /// The number of states is not the number of steps.
    #[error("another number of states than of steps")]
    WrongLength,
    /// The first step that is running or undoing.
    #[error("step {0} is busy")]
    Busy(u16),
    /// A memory allocation failed.
    #[error("out of memory")]
    OutOfMemory,
}

impl JsonFault {
    ghost use Rattle.saga_json.specs.Faults.{word_of};

    /// The fault in one word, for example `bad-type`, for a line of output.
    pub fn word(&self) -> &'static str
        ensures { result.now ≡ word_of self.now }
    {
        match self {
            JsonFault::NotJson => "not-json",
            JsonFault::Kind => "kind",
            JsonFault::UnknownKey => "unknown-key",
            JsonFault::MissingKey => "missing-key",
            JsonFault::BadType => "bad-type",
            JsonFault::Kept => "kept",
            JsonFault::WrongLength => "wrong-length",
            JsonFault::Busy(_) => "busy",
            JsonFault::OutOfMemory => "out-of-memory",
        }
    }
}

impl From<AllocError> for JsonFault {
    ghost use Rattle.saga_json.specs.declared.faults.JsonFault.TheVariants.{OutOfMemory};

    ghost from_gives = { λ _ fault. fault ≡ OutOfMemory };

    fn from(_: AllocError) -> JsonFault {
        JsonFault::OutOfMemory
    }
}

impl<T: Drop> From<AllocFailed<T>> for JsonFault {
    ghost use Rattle.saga_json.specs.declared.faults.JsonFault.TheVariants.{OutOfMemory};

    ghost from_gives = { λ _ fault. fault ≡ OutOfMemory };

    fn from(_: AllocFailed<T>) -> JsonFault {
        JsonFault::OutOfMemory
    }
}
