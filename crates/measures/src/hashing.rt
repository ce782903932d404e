//! Blocks, hashed. A block is four bytes of length, the most significant first, and the bytes.

use crate::memory::had;
use anyhow::{Result, bail};
use at_cid::cid_of;
use os_edge::{ReaderSource, Reporter};
use relay_io::read_to_end;

/// The most bytes of input.
const MOST: usize = 1 << 28;

/// Hashes the blocks of the input, and says how many there are.
pub fn hash(rt: &HostRuntime) -> Result<()> {
    let reporter = had(Reporter::new(*rt, "measures"))?;
    let mut input = ReaderSource::new(reporter, "standard input", rt.stdin());
    let Ok(bytes) = read_to_end(rt.alloc(), &mut input, MOST) else {
        bail!("the input");
    };
    let (count, folded) = hash_all(bytes.as_slice());
    println!(rt; "blocks {count} folded {folded}")?;
    Ok(())
}

/// How many blocks there are, and the last bytes of their digests, folded.
fn hash_all(bytes: &[u8]) -> (usize, u8) {
    let (mut rest, mut folded) = (bytes, 0);
    for count in 0..bytes.len() {
        let Some((block, others)) = first_block(rest) else {
            return (count, folded);
        };
        rest = others;
        folded ^= cid_of(block).as_bytes()[35];
    }
    (bytes.len(), folded)
}

fn first_block(bytes: &[u8]) -> Option<(&[u8], &[u8])> {
    let (front, rest) = bytes.split_first_chunk::<4>()?;
    let length = u32::from_be_bytes(*front) as usize;
    if length > rest.len() {
        return None;
    }
    Some(rest.split_at(length))
}
