//! Why a drive ends before standard input ends.
use crate::endings::Ending;
use std::alloc::AllocError;
use std::convert::From;

/// Why a drive stops before standard input ends: an ending with a message, or lack of memory.
#[derive(Drop)]
pub enum Halt {
    Early(Ending),
    OutOfMemory,
}

impl From<AllocError> for Halt {
    ghost use Rattle.std.specs.Prelude.{◌≡◌};
    ghost use Rattle.saga_serve.specs.declared.stops.Halt.TheVariants.{OutOfMemory};

    ghost from_gives = { λ _ stop. stop ≡ OutOfMemory };

    fn from(_: AllocError) -> Halt {
        Halt::OutOfMemory
    }
}
