//! Why an event of a record is not allowed.
ghost use Rattle.std.specs.Prelude.{◌≡◌};
ghost use Rattle.saga_fleet.specs.Words.{word_of};

/// Why an event is not allowed.
#[derive(Clone, Copy, Debug, PartialEq, Eq)]
pub enum Reason {
    /// The epoch of a takeover is not the next one.
    EpochNotNext,
    /// A takeover did not read exactly the existing chunks.
    OtherLength,
    /// A takeover read, or a commit wrote, a chunk with another digest.
    OtherContent,
    /// The event is one of a session that has not begun.
    NoSuchSession,
    /// A session decided while it was waiting for an answer, or after it was refused.
    NotIdle,
    /// A commit was written or refused without a request.
    NothingSent,
    /// A commit was answered that was not written.
    NothingDone,
    /// A commit or an answer happened on another server than the one on which the session took the log over.
    OtherServer,
    /// A commit was written under an epoch that is not the log's.
    OldEpoch,
    /// A commit was not written directly after all chunks.
    OtherPlace,
    /// A commit was answered before each server that may take over had its chunks.
    NotShipped,
    /// Something was acknowledged that rests on chunks that the session does not know.
    NotKnown,
    /// The number of chunks is below the number that each server that may take over is known to have.
    FewerThanShipped,
    /// The number of chunks is above the number of written ones.
    MoreThanWritten,
}

impl Reason {
    /// The reason in one word, as the program prints it.
    pub fn word(self) -> &'static str
        ensures { result.now ≡ word_of self }
    {
        match self {
            Reason::EpochNotNext => "epoch-not-next",
            Reason::OtherLength => "other-length",
            Reason::OtherContent => "other-content",
            Reason::NoSuchSession => "no-such-session",
            Reason::NotIdle => "not-idle",
            Reason::NothingSent => "nothing-sent",
            Reason::NothingDone => "nothing-done",
            Reason::OtherServer => "other-server",
            Reason::OldEpoch => "old-epoch",
            Reason::OtherPlace => "other-place",
            Reason::NotShipped => "not-shipped",
            Reason::NotKnown => "not-known",
            Reason::FewerThanShipped => "fewer-than-shipped",
            Reason::MoreThanWritten => "more-than-written",
        }
    }
}
