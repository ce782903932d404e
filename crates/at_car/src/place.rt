//! Blocks that lie one behind the other in a buffer.

ghost use Rattle.std.specs.Prelude.{◌≡◌, ◌≤◌, ◌+◌, ◌++◌, length, OnOk, OnErr, IfOk};
ghost use Rattle.at_cid.specs.Link.{IsBytes};
ghost use Rattle.at_car.specs.Places.{bytes_at};

use at_cid::{Memory, Octets, ghost_bytes};

/// Where the bytes of a block lie in a buffer.
#[derive(Clone, Copy, Debug)]
pub(crate) struct BlockPlace {
    pub start: u32,
    pub len: u32,
}

/// The bytes at a place.
#[inline]
pub(crate) fn bytes_at<'a>(buffer: &'a [u8], place: &BlockPlace) -> &'a [u8]
    requires { place.now.start + place.now.len ≤ length buffer.now }
    ensures is { result.now ≡ bytes_at buffer.now place.now }
    ensures bytes { IsBytes result.now }
{
    let (_, rest) = buffer.split_at(place.start as usize);
    let (bytes, _) = rest.split_at(place.len as usize);
    ghost_bytes(bytes);
    bytes
}

/// Adds a block at the end of a buffer. A buffer has less than 2^32 bytes.
pub(crate) fn lay(buffer: &mut Octets, block: &[u8]) -> Result<BlockPlace, Memory>
    ensures is { IfOk result (λ place. bytes_at buffer.new place ≡ block.now) }
    ensures within { IfOk result (λ place. place.start + place.len ≤ length buffer.new) }
    ensures start { IfOk result (λ place. place.start ≡ length buffer.old) }
    ensures ok { OnOk result (buffer.new ≡ buffer.old ++ block.now) }
    ensures err { OnErr result (buffer.new ≡ buffer.old) }
{
    let (Ok(start), Ok(len)) = (u32::try_from(buffer.len()), u32::try_from(block.len())) else {
        return Err(Memory);
    };
    buffer.extend(block)?;
    Ok(BlockPlace { start, len })
}
