//! The limits of a decision (own).

/// How many bytes an outgoing message has at most, its number counted as nine.
pub const LONGEST_MESSAGE: u64 = 4_194_304;

/// How far a revision may be ahead of the clock, in microseconds.
pub const MOST_AHEAD: u64 = 300_000_000;

/// The number of a fetched repository whose signature is bad.
pub const FETCHED_UNSIGNED: u8 = 10;

/// The number of a fetched repository whose revision is far ahead of the clock.
pub const FETCHED_AHEAD: u8 = 12;
