//! The limits of what is read and written.

/// An argument is below this: it has eight bytes at most (RFC 8949, section 3).
pub const ARGUMENTS: u128 = 1 << 64;

/// An integer is below this, and not below its negative (own limit: those of `i64`).
pub const INTEGERS: u64 = 1 << 63;

/// How many bytes stand behind the tag of a link: the head of a byte string, a 0, and the link (DAG-CBOR specification, links).
pub const TAGGED_LEN: usize = 39;
