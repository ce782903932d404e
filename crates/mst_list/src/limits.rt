//! The limits of heights and of operations.

/// The height of a key is at most this: half the bits of its SHA-256.
pub const MOST_HEIGHT: u8 = 128;

/// A commit has fewer operations than this (own limit: the place of each fits `u32`).
pub const OP_COUNTS: usize = 1 << 32;
