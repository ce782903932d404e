//! The limits of a log, and the lengths of its parts (own).

/// The limit that no record ends past is at most this, in bytes.
pub const LAST_END: u64 = 1 << 62;

/// The length of a body is below this, in bytes: four bytes have room for it.
pub const BODY_LENGTHS: u64 = 1 << 32;

/// How many bytes a mark has, which is the whole front of the first format: an open gate, "atrelay" and the number
/// of a format.
pub const MARK_LEN: usize = 9;

/// How many bytes a front of the second format has: a mark, and eight bytes of generation.
pub const SECOND_FRONT_LEN: usize = MARK_LEN + 8;

/// How many bytes a log without bodies has in the first format: its front and a closed gate. A made log has no fewer.
pub const EMPTY_LEN: usize = MARK_LEN + 1;

/// How many bytes the length of a body has in its record.
pub const LENGTH_LEN: usize = 4;

/// How many bytes of a record stand before its body: its gate and the length.
pub const BEFORE_BODY: usize = 1 + LENGTH_LEN;

/// How many bytes are wanted around a body that is added: those before it, and the closed gate behind it.
pub const AROUND_BODY: usize = BEFORE_BODY + 1;

/// A build writes its records together, once they are so many bytes.
pub const GATHERED: usize = 1 << 17;
