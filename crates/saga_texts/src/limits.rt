//! The limits of texts. The limit of a definition is in `saga_text`.

/// The maximum number of bytes of a case or an answer.
pub const MAX_CERTIFICATE: usize = 67_108_864;

/// The maximum number of bytes of a log.
pub const MAX_LOG: usize = 671_088_640;

/// The maximum number of definitions of a run, and of a `drive` that writes its log.
pub const MAX_SHELF: usize = 64;

/// The maximum number of definitions of an audit, and of a `drive` that prints its log lines.
pub const MAX_LONG_SHELF: usize = 1000;

/// The number of threads of an audit.
pub const AUDITORS: u32 = 4;
