//! The events of a record: what many nodes did with the log of one shard, one event after the
//! other.

/// The state of the last request of a session to the database.
#[derive(Clone, Copy, Debug, PartialEq, Eq)]
pub enum Stage {
    /// The request was answered, or there was none.
    Idle,
    /// A commit was sent. It may arrive late, or never.
    Sent,
    /// The database has executed it. The answer may never arrive.
    Done,
    /// The request was refused: the log has another epoch, or another server has taken over.
    /// Nothing was written.
    Refused,
}

/// An act of a session, or of the database for the session.
#[derive(Clone, Copy, Debug, PartialEq, Eq)]
pub enum Deed {
    /// The session decided a chunk with this digest, and sent it.
    Decided(u64),
    /// The database wrote the chunk. The fields are the number of chunks before it, and its digest.
    Written(u64, u64),
    /// The database refused the chunk.
    TurnedDown,
    /// The session got the answer that the commit succeeded.
    Heard,
    /// The session acknowledged something that rests on this many chunks.
    Told(u64),
}

/// An event of a record.
///
/// A digest is any number that the recorder computes from a chunk. If the digest of a chunk covers
/// all chunks before it, as in a hash chain, then the digest of the last chunk identifies the whole
/// log.
#[derive(Clone, Copy, Debug, PartialEq, Eq)]
pub enum Event {
    /// A session began with this epoch. It read this many chunks; the digest is that of the last
    /// one, or 0 if there is none.
    TookOver(u64, u64, u64),
    /// A session acted. The number counts sessions from 0, in the order of their beginnings.
    Did(usize, Deed),
    /// Each server that may take over has this many chunks.
    Shipped(u64),
    /// Another server took over, with this many chunks and this epoch.
    FailedOver(u64, u64),
}
