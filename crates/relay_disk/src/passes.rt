//! How many calls a disk passes on.
ghost use Rattle.std.specs.Prelude.{◌≡◌, ◌≤◌, ◌-◌, ◌↔◌, IsErr, OnOk, OnErr};
ghost use Rattle.at_cid.specs.Counts.{Rose};

use crate::Failed;
use crate::counts::fail;

/// How many calls are passed on yet, and how many calls have failed.
#[derive(Drop)]
pub(crate) struct Passes {
    pub(crate) left: u64,
    pub(crate) faults: u64,
}

impl Passes {
    /// Takes a pass for a call. It fails where none is left.
    pub(crate) fn take(&mut self) -> Result<(), Failed>
        ensures fails { IsErr result ↔ (self.old.left ≡ 0) }
        ensures fewer { self.new.left ≡ self.old.left - 1 }
        ensures same { OnOk result (self.new.faults ≡ self.old.faults) }
        ensures failed { OnErr result (Rose self.old.faults self.new.faults) }
        ensures counts { self.old.faults ≤ self.new.faults }
    {
        if self.left == 0 {
            return fail(&mut self.faults);
        }
        self.left -= 1;
        Ok(())
    }
}
