//! The limit of the files.

/// The most bytes of a log, and of a tape.
pub const LONGEST: u64 = 1 << 40;
