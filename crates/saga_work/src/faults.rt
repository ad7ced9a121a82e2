//! Why a worker stops, and why a run returns no books.
ghost use Rattle.std.specs.Prelude.{◌≡◌};
ghost use Rattle.saga_work.specs.Words.{word_of_finish, word_of_run, word_of_stop};

use saga_core::OpenRefusal;

/// Why a worker stopped before each saga was ended or stuck.
#[derive(Clone, Copy, Debug, PartialEq, Eq)]
pub enum Stop {
    /// A memory allocation for a claim, a plan or an abort failed.
    OutOfMemory,
    /// The desk refused the end of a claim, or an abort.
    Refused,
}

/// Why a desk could not be finished, except for lack of memory.
#[derive(Clone, Copy, Debug, PartialEq, Eq)]
pub enum FinishFault {
    /// A returned seat is not one of the desk's.
    Stranger,
    /// A seat was not returned.
    Missing,
    /// The receipts of the seats do not agree with the books.
    Torn,
}

/// Why a run returns no books.
#[derive(Clone, Copy, Debug, PartialEq, Eq)]
pub enum RunFault {
    /// The saga with this number was not opened. No step was run.
    Open(usize, OpenRefusal),
    /// The desk could not be finished.
    Finish(FinishFault),
    /// A memory allocation failed, before or after steps were run.
    OutOfMemory,
}

impl Stop {
    /// The stop in one word, for example `refused`.
    pub fn word(&self) -> &'static str
        ensures { result.now ≡ word_of_stop self.now }
    {
        match self {
            Stop::OutOfMemory => "out-of-memory",
            Stop::Refused => "refused",
        }
    }
}

impl FinishFault {
    /// The fault in one word, for example `torn`.
    pub fn word(&self) -> &'static str
        ensures { result.now ≡ word_of_finish self.now }
    {
        match self {
            FinishFault::Stranger => "stranger",
            FinishFault::Missing => "missing",
            FinishFault::Torn => "torn",
        }
    }
}

impl RunFault {
    /// The fault in one word, for example `no-such-definition`.
    pub fn word(&self) -> &'static str
        ensures { result.now ≡ word_of_run self.now }
    {
        match self {
            RunFault::Open(_, OpenRefusal::NoSuchDefinition) => "no-such-definition",
            RunFault::Open(_, OpenRefusal::Full) => "full",
            RunFault::Finish(fault) => fault.word(),
            RunFault::Open(_, OpenRefusal::OutOfMemory) | RunFault::OutOfMemory => "out-of-memory",
        }
    }
}
