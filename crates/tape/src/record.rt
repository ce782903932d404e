//! A record of a tape.

use at_cid::{Octets, Words};
use at_syntax::LONGEST_HOST;
use relay_io::LONGEST_FEED_MESSAGE;

/// A message, the host that it is of, and the place of its record, in bytes from the front of the tape.
#[derive(Debug, Drop)]
pub struct Record {
    pub host: Words,
    pub message: Octets,
    pub place: u64,
}

/// How many bytes of a record are neither its host's name nor its message: one for the length of the name, four for that of
/// the message.
pub(crate) const LENGTHS: usize = 5;

/// The most bytes that stand in front of a message.
pub(crate) const LONGEST_HEAD: usize = 260;

/// The most bytes of a record.
pub const LONGEST_RECORD: usize = 8_388_868;

const _: () = prove!(LONGEST_HEAD == LENGTHS + LONGEST_HOST);

const _: () = prove!(LONGEST_RECORD == LONGEST_HEAD + LONGEST_FEED_MESSAGE);
