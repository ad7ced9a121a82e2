//! The limits of arguments and of standard input. The crates that read texts and logs define the limits of those.

/// The maximum number of bytes of standard input.
pub const MAX_INPUT: usize = 1_048_576;

/// The maximum number of workers, and of shards, of a run.
pub const MAX_NUMBER: u64 = 16;
