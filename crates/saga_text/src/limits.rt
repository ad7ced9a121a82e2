//! The limit of a definition file.

/// The maximum number of bytes of a definition file.
pub const MAX_DEFINITION: usize = 1_048_576;
