//! The limits of an event (own).

/// How many bytes the blocks of a `#commit` have at most.
pub const MOST_COMMIT_BYTES: usize = 2_000_000;

/// How many bytes the blocks of a `#sync` have at most.
pub const MOST_SYNC_BYTES: usize = 10_000;

/// How many operations a `#commit` has at most.
pub const MOST_OPS: usize = 200;
