//! What stands at the front of bytes of a stream.

ghost use Rattle.std.specs.Prelude.{◌≡◌, length, IfOk};
ghost use Rattle.mirror_run.specs.Front.{IsFront, IsLonger, front_of};

use at_cid::{Memory, Octets};
use relay_io::LONGEST_FEED_MESSAGE;
use std::alloc::Global;

/// How many bytes the length of a message takes.
pub(crate) const LENGTH: usize = 4;

/// What stands at the front of bytes.
pub(crate) enum Front {
    Message(Octets),
    TooLong,
    /// Too few bytes for an answer: the number that a message takes with its length, as far as these bytes show it.
    More(usize),
}

/// What stands at the front of bytes of a stream.
pub(crate) fn read_front(alloc: Global, bytes: &[u8]) -> Result<Front, Memory>
    ensures front { IfOk result (λ front. IsFront front (front_of bytes.now)) }
    ensures longer { IfOk result (λ front. IsLonger (length bytes.now) front) }
{
    let Some((size, rest)) = bytes.split_first_chunk::<4>() else {
        return Ok(Front::More(LENGTH));
    };
    let size = u32::from_be_bytes(*size) as usize;
    if size > LONGEST_FEED_MESSAGE {
        return Ok(Front::TooLong);
    }
    if rest.len() < size {
        return Ok(Front::More(LENGTH + size));
    }
    let message = Octets::from_slice(alloc, &rest[..size])?;
    Ok(Front::Message(message))
}
