//! The limits of a drive.

/// The maximum number of bytes that one read takes from standard input.
pub const AT_ONCE: usize = 65_536;

/// The number of bytes of waiting replies from which on a drive writes them.
pub const MAX_WAITING: usize = 1_048_576;

/// The number of bytes of a log that are reserved for the plans that later starts drop. The bytes
/// that open sagas may still write are counted separately.
pub const SPARE: usize = 1_048_576;

/// The maximum size, in bytes, of the definitions file beside a log: 64 definitions of maximum
/// size, each with its line.
pub const MAX_BESIDE: usize = 67_112_960;
