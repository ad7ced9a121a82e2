//! The limit of a record.

/// The maximum length of a record's text in bytes.
pub const MAX_RECORD: usize = 67_108_864;
