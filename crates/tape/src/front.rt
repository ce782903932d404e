//! What stands at the front of bytes.

ghost use Rattle.std.specs.Prelude.{◌≡◌, ◌+◌, length, true, IfOk};
ghost use Rattle.at_syntax.specs.Host.{is_host};
ghost use Rattle.tape.specs.Front.{IsFront, IsLonger, front_of, behind_name};

use crate::name::host_of;
use crate::record::{LENGTHS, LONGEST_HEAD, Record};
use at_cid::{Memory, Octets, Words};
use relay_io::LONGEST_FEED_MESSAGE;
use std::alloc::Global;

/// What stands at the front of bytes.
pub(crate) enum Front {
    Record(Record),
    BadName,
    TooLong,
    /// Too few bytes for an answer: a record takes so many, as far as they tell.
    More(usize),
}

/// What stands at the front of the bytes at a place of a tape.
pub(crate) fn read_front(alloc: Global, bytes: &[u8], place: u64) -> Result<Front, Memory>
    ensures front { IfOk result (λ front. IsFront place front (front_of bytes.now)) }
    ensures longer { IfOk result (λ front. IsLonger (length bytes.now) front) }
{
    let [count, rest @ ..] = bytes else {
        return Ok(Front::More(LONGEST_HEAD));
    };
    let count = usize::from(*count);
    if rest.len() < count {
        return Ok(Front::More(LONGEST_HEAD));
    }
    let (name, rest) = rest.split_at(count);
    match host_of(name) {
        Some(host) => read_message(alloc, host, rest, place),
        None => Ok(Front::BadName),
    }
}

// What stands behind the name of a record.
#[tactic(auto, using(crate::proofs::Names::length_host))]
fn read_message(alloc: Global, host: &str, bytes: &[u8], place: u64) -> Result<Front, Memory>
    requires { is_host host.now ≡ true }
    ensures front { IfOk result (λ front. IsFront place front (behind_name host.now bytes.now)) }
    ensures longer { IfOk result
        (λ front. IsLonger (1 + length host.now + length bytes.now) front) }
{
    let Some((size, rest)) = bytes.split_first_chunk::<4>() else {
        return Ok(Front::More(LONGEST_HEAD));
    };
    let size = u32::from_be_bytes(*size) as usize;
    if size > LONGEST_FEED_MESSAGE {
        return Ok(Front::TooLong);
    }
    if rest.len() < size {
        return Ok(Front::More(LENGTHS + host.len() + size));
    }
    let host = Words::from_str(alloc, host)?;
    let message = Octets::from_slice(alloc, &rest[..size])?;
    Ok(Front::Record(Record {
        host,
        message,
        place,
    }))
}
