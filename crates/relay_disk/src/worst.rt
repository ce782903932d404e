//! The images that a disk in memory offers as the worst cases of a crash.
ghost use Rattle.std.specs.Prelude.{◌≡◌, ◌≤◌, ◌↔◌, false, [], IfOk, IfSome, IsNone, length};
ghost use Rattle.relay_disk.specs.Disk.{IsSettled};
ghost use Rattle.relay_disk.specs.MemoryView.{memory_view, moment_of, calls_of, failing, taken};
ghost use Rattle.relay_disk.specs.Memory.{inverted_from};
ghost use Rattle.relay_disk.specs.Worst.{IsWorst};

use crate::call::is_covered;
use crate::{Call, MemoryDisk};
use at_cid::Memory;
use std::alloc::Global;

/// How many worst cases of a crash a disk in memory offers.
pub const WORST_CASES: u8 = 3;

// The bytes, each of them inverted that a call since the last sync wrote.
fn inverted(alloc: Global, bytes: &[u8], calls: &[Call]) -> Result<Vec<u8>, Memory>
    ensures { IfOk result (λ image. image.items ≡ inverted_from 0 calls.now bytes.now) }
{
    let mut image = Vec::new(alloc);
    'bytes: for (i, byte) in bytes.iter().enumerate() {
        let byte = if is_covered(calls, i) {
            255 - *byte
        } else {
            *byte
        };
        image.push(byte)?;
    }
    Ok(image)
}

impl MemoryDisk {
    /// One of the worst cases of a crash now, as a new disk, synced, with an empty list of failing calls:
    /// 0 is the content, 1 the content at the last sync, and 2 the content with each byte of the ranges written
    /// since then inverted.
    pub fn worst(&self, alloc: Global, i: u8) -> Result<Option<MemoryDisk>, Memory>
        ensures none { IfOk result (λ found. IsNone found ↔ (WORST_CASES ≤ i)) }
        ensures image { IfOk result (λ found. IfSome found
            (λ disk. IsWorst i (moment_of self.now) (memory_view disk).content)) }
        ensures left { IfOk result (λ found. IfSome found
            (λ disk. (memory_view self.now).may_leave (memory_view disk).content)) }
        ensures settled { IfOk result (λ found. IfSome found
            (λ disk. IsSettled (memory_view disk) (memory_view disk).content)) }
        ensures fresh { IfOk result (λ found. IfSome found
            (λ disk. (failing disk ≡ []) × (taken disk ≡ 0) × (calls_of disk ≡ []))) }
        ensures faults { IfOk result
            (λ found. IfSome found (λ disk. (memory_view disk).faults ≡ 0)) }
    {
        let image = match i {
            0 => Vec::from_slice(alloc, &self.content)?,
            1 => Vec::from_slice(alloc, &self.settled)?,
            2 => inverted(alloc, &self.content, &self.calls)?,
            _ => return Ok(None),
        };
        Ok(Some(MemoryDisk::new(alloc, &image, &[])?))
    }
}
