//! The result of an audit of a record.
use crate::reasons::Reason;

/// The result of an audit: whether the record is one of an allowed run.
#[derive(Clone, Copy, Debug, PartialEq, Eq)]
pub enum RecordAnswer {
    /// Each event is allowed after the events before it.
    Yes {
        /// The number of sessions that began.
        sessions: usize,
        /// The number of chunks in the log at the end.
        chunks: usize,
        /// The number of failovers.
        failovers: usize,
        events: usize,
    },
    /// The event at this index is the first that is not allowed.
    No {
        position: usize,
        reason: Reason,
    },
}
