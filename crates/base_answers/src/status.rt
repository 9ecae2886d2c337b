// The exit statuses of a run.

/// The problem is valid.
pub const VALID: u8 = 0;

/// The problem is refuted.
pub const INVALID: u8 = 1;

/// The answer is not known.
pub const UNKNOWN: u8 = 2;

/// The file is refused.
pub const FILE_REFUSED: u8 = 3;

/// The proof is refused.
pub const PROOF_REFUSED: u8 = 4;

/// The words name no job.
pub const WORDS_REFUSED: u8 = 5;

/// The source failed.
pub const SOURCE_FAILED: u8 = 6;

/// The sink failed.
pub const SINK_FAILED: u8 = 7;

/// Memory was wanting.
pub const NO_MEMORY: u8 = 8;

/// The file has too many bytes.
pub const FILE_TOO_LONG: u8 = 9;
