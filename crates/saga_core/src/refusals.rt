//! Why a call on a book is refused. Each type lists the causes in the order of the checks.
use saga_audit::Reason;
use saga_check::Verdict;

/// Why no saga is opened.
#[derive(Clone, Copy, Debug, PartialEq, Eq)]
pub enum OpenRefusal {
    NoSuchDefinition,
    /// The book already has [`MAX_SAGAS`](crate::MAX_SAGAS) sagas.
    Full,
    OutOfMemory,
}

/// Why an action or a compensation does not start.
#[derive(Clone, Copy, Debug, PartialEq, Eq)]
pub enum TakeRefusal {
    NoSuchSaga,
    NoSuchStep,
    NotNow,
    OutOfMemory,
}

/// Why the report of an action or a compensation is refused.
#[derive(Clone, Copy, Debug, PartialEq, Eq)]
pub enum ReportRefusal {
    NoSuchSaga,
    NoSuchStep,
    /// The action is not running, or the compensation is not running.
    NotTaken,
}

/// Why a plan does not start, or why a saga is not aborted.
#[derive(Clone, Copy, Debug, PartialEq, Eq)]
pub enum SagaRefusal {
    NoSuchSaga,
    NotNow,
    OutOfMemory,
}

/// Why a plan is not dropped.
#[derive(Clone, Copy, Debug, PartialEq, Eq)]
pub enum DropRefusal {
    NoSuchSaga,
    NotPlanning,
}

/// Why a verdict is not adopted.
#[derive(Clone, Copy, Debug, PartialEq, Eq)]
pub enum AdoptRefusal {
    NoSuchSaga,
    NotPlanning,
    /// The verdict is for another case than the saga's current one: the definition or the states
    /// differ, or the saga was aborted after the case was made.
    Stale,
}

/// A verdict that is not adopted, with the cause.
#[derive(Debug, Drop)]
pub struct AdoptRefused<'d> {
    pub verdict: Verdict<'d>,
    pub why: AdoptRefusal,
}

/// Why [`Book::replay`](crate::Book::replay) makes no book of a history.
#[derive(Clone, Copy, Debug, PartialEq, Eq)]
pub enum ReplayRefusal {
    /// The history is not legal. `position` is the index, from 0, of the first event that the rules
    /// do not allow after the events before it. `reason` is the reason that an audit gives.
    NotLegal { position: usize, reason: Reason },
    /// The history is legal, but the event at this index opens a saga with another number than the
    /// next one.
    NotNumbered { position: usize },
    /// The history is legal, but the event at this index opens a saga when the book is full.
    Full { position: usize },
    OutOfMemory,
}
