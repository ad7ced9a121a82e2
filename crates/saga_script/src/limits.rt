//! Limits of a script.

/// The maximum length of a script in bytes.
pub const MAX_SCRIPT: usize = 1_048_576;
