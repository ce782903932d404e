//! Limits that hold over all crates.

/// Numbers are below this: those that a double-precision float has exactly (Data Model specification, integers).
pub const NUMBERS: u64 = 1 << 53;
