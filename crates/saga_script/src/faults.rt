//! Why a script is refused.
use std::alloc::AllocError;
use std::convert::From;

/// Why a script is refused. `OutOfMemory` may replace any other result.
#[derive(Clone, Copy, Debug, PartialEq, Eq)]
pub enum ScriptFault {
    /// The script has more bytes than [`MAX_SCRIPT`](crate::MAX_SCRIPT).
    TooLong,
    /// The number, from 1, of the first line that does not have the format. Empty lines are counted.
    BadLine(usize),
    /// A memory allocation failed.
    OutOfMemory,
}

impl From<AllocError> for ScriptFault {
    ghost use Rattle.std.specs.Prelude.{◌≡◌};
    ghost use Rattle.saga_script.specs.declared.faults.ScriptFault.TheVariants.{OutOfMemory};

    ghost from_gives = { λ _ fault. fault ≡ OutOfMemory };

    fn from(_: AllocError) -> ScriptFault {
        ScriptFault::OutOfMemory
    }
}
