//! The kind of log that a drive has.
ghost use Rattle.saga_logged.specs.BookLog.{Recovers};
ghost use Rattle.saga_logged.specs.Recovery.{recovers_whole, recovers_within};
ghost use Rattle.saga_serve.specs.Kinds.{any_legal, any_starts};
ghost use Rattle.saga_serve.specs.Logs.{IsLogged};

use saga_wal::Logged;

/// Stands for the books of a drive, of whatever shelf. Its logs are the logs of books.
#[derive(Drop)]
pub struct Books {
    pub marker: u64,
}

impl Logged for Books {
    ghost is_log = { λ books text. IsLogged text };

    ghost recovers = { Recovers };

    ghost within = { recovers_within };

    ghost whole = { λ books l c n x is prefix r. recovers_whole is.0.book l c n x is.1 prefix r };

    ghost starts = { λ c part. any_starts c part };

    ghost legal = { λ c n x part r. any_legal (λ found. record { marker = 0 }) c n x part r };
}
