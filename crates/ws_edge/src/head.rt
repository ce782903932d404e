//! Heads of HTTP that come in pieces.
ghost use Rattle.std.specs.Prelude.{◌≡◌, ◌≤◌, length, drop, IfOk};

use crate::fault::Fault;
use crate::limits::LONGEST_HEAD;
use at_cid::Octets;
use std::alloc::Global;
use std::io::Read;

// The most bytes of a piece.
const PIECE: usize = 4096;

/// Adds the next piece of a head that isn't whole.
pub(crate) fn read_piece<S: Read>(stream: &mut S, head: &mut Octets) -> Result<(), Fault> {
    if head.len() >= LONGEST_HEAD {
        return Err(Fault::LongHead);
    }
    let mut room = [0; PIECE];
    match stream.read(&mut room) {
        Ok(0) => Err(Fault::Closed),
        Ok(count) => Ok(head.extend(&room[..count])?),
        Err(e) => Err(e.into()),
    }
}

/// The bytes that came after a head of this size.
pub(crate) fn behind_head(alloc: Global, bytes: &[u8], size: usize) -> Result<Vec<u8>, Fault>
    requires { size ≤ length bytes.now }
    ensures { IfOk result (λ behind. behind.items ≡ drop size bytes.now) }
{
    Ok(Vec::from_slice(alloc, &bytes[size..])?)
}
