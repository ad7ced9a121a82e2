//! Why a definition file is refused.
ghost use Rattle.std.specs.Prelude.{◌≡◌};

use saga_def::DefFault;
use std::alloc::{AllocError, AllocFailed};
use std::convert::From;

/// Why [`read_definition`](crate::read_definition) refuses a file. If a file has several faults, the result is the
/// first one in this list, for the whole file. `OutOfMemory` may replace any other result.
#[derive(Debug, Drop)]
pub enum TextFault {
    /// More than [`MAX_DEFINITION`](crate::MAX_DEFINITION) bytes.
    TooLong,
    /// Bytes that are not UTF-8, or a text that `toml` refuses.
    NotToml,
    /// `format` is missing, or is not the integer 1 or 2.
    BadFormat,
    /// A key at the top, or in a table of the list `step`, is not a key of the format.
    UnknownKey,
    /// A `name` is missing at the top, or in a table of the list `step`.
    MissingKey,
    /// A value has the wrong type, a number is below 0, or the text of a cost is not `never`.
    BadType,
    /// The file has a definition, and this is its first fault. It is never `DefFault::OutOfMemory`.
    Def(DefFault),
    /// A memory allocation failed.
    OutOfMemory,
}

impl TextFault {
    ghost use Rattle.saga_text.specs.Faults.{word_of};

    /// The fault in one word, for example `bad-type`, for a line of output. A definition's fault has its own word.
    pub fn word(&self) -> &'static str
        ensures { result.now ≡ word_of self.now }
    {
        match self {
            TextFault::TooLong => "too-long",
            TextFault::NotToml => "not-toml",
            TextFault::BadFormat => "bad-format",
            TextFault::UnknownKey => "unknown-key",
            TextFault::MissingKey => "missing-key",
            TextFault::BadType => "bad-type",
            TextFault::Def(fault) => fault.word(),
            TextFault::OutOfMemory => "out-of-memory",
        }
    }
}

impl From<DefFault> for TextFault {
    ghost use Rattle.saga_text.specs.Faults.{carried};

    ghost from_gives = { λ fault own. own ≡ carried fault };

    fn from(fault: DefFault) -> TextFault {
        match fault {
            DefFault::OutOfMemory => TextFault::OutOfMemory,
            fault => TextFault::Def(fault),
        }
    }
}

impl From<AllocError> for TextFault {
    ghost use Rattle.saga_text.specs.declared.faults.TextFault.TheVariants.{OutOfMemory};

    ghost from_gives = { λ _ fault. fault ≡ OutOfMemory };

    fn from(_: AllocError) -> TextFault {
        TextFault::OutOfMemory
    }
}

impl<T: Drop> From<AllocFailed<T>> for TextFault {
    ghost use Rattle.saga_text.specs.declared.faults.TextFault.TheVariants.{OutOfMemory};

    ghost from_gives = { λ _ fault. fault ≡ OutOfMemory };

    fn from(_: AllocFailed<T>) -> TextFault {
        TextFault::OutOfMemory
    }
}
