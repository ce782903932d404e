//! What a disk in memory has left, and where it is to fail.
ghost use Rattle.std.specs.Prelude.{◌≡◌, ◌≤◌, ◌<◌, ◌+◌, ◌-◌, ◌^◌, ◌↔◌, ◌⊎◌, min, IsErr, OnOk, OnErr, Contains};
ghost use Rattle.at_cid.specs.Counts.{Rose};

use crate::Failed;
use at_cid::Failures;

/// The room for so many calls more, and for so many bytes in their writes.
#[derive(Drop)]
pub(crate) struct Room {
    pub(crate) calls: usize,
    pub(crate) bytes: usize,
    pub(crate) failures: Failures,
}

impl Room {
    /// Takes a call that writes so many bytes. It fails where its number is listed or it goes past the room.
    pub(crate) fn take(&mut self, bytes: usize) -> Result<(), Failed>
        ensures fails { IsErr result
            ↔ (Contains self.old.failures.listed.items self.new.failures.taken
            ⊎ ((self.old.calls ≡ 0) ⊎ (self.old.bytes < bytes))) }
        ensures calls { OnOk result (self.new.calls + 1 ≡ self.old.calls) }
        ensures bytes { OnOk result (self.new.bytes + bytes ≡ self.old.bytes) }
        ensures kept { OnErr result
            ((self.new.calls ≡ self.old.calls) × (self.new.bytes ≡ self.old.bytes)) }
        ensures taken { self.new.failures.taken ≡ min (self.old.failures.taken + 1) (2 ^ 64 - 1) }
        ensures listed { self.new.failures.listed.items ≡ self.old.failures.listed.items }
        ensures steady { OnOk result (self.new.failures.faults ≡ self.old.failures.faults) }
        ensures failed { OnErr result (Rose self.old.failures.faults self.new.failures.faults) }
        ensures counts { self.old.failures.faults ≤ self.new.failures.faults }
    {
        self.failures.begin(Failed)?;
        if self.calls == 0 || self.bytes < bytes {
            return self.failures.fail(Failed);
        }
        self.calls -= 1;
        self.bytes -= bytes;
        Ok(())
    }
}
