//! The limits of what is checked.

/// How many bytes a repository has at most (own limit).
pub const MOST_REPOSITORY_BYTES: u64 = 268_435_456;
