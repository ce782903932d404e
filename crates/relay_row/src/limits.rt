//! The limits of a journal (own).

/// How many rows a body has at most.
pub const MOST_ROWS: usize = 64;

/// The place of an operation is below this: four bytes have room for it.
pub const PLACES: u64 = 1 << 32;
