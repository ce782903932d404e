//! Opening the store of two disks.

ghost use Rattle.std.specs.Prelude.{◌≡◌, ◌≤◌, ℕ, Err, IsTrue, IfOk};
ghost use Rattle.gate_log.specs.declared.limits.TheConstants.{LAST_END};
ghost use Rattle.relay_store.specs.Journals.{IsBadPairJournalAt};
ghost use Rattle.relay_store.specs.Opening.{IsOfReading, Opened};
ghost use Rattle.relay_store.specs.declared.fault.StoreFault.{StoreFault as TheFault};
ghost use Rattle.at_cid.specs.Counts.{CountedPair};
ghost use Rattle.run_base.specs.Place.{SamePair};

use crate::pair::Pair;
use relay_disk::Disk;
use relay_store::{Store, StoreFault};
use std::alloc::Global;

impl<D: Disk> Pair<'_, '_, D> {
    /// Opens the store of the two disks, as `Store::open` does. No row is to end past `most`, which is in bytes.
    pub fn open(&mut self, alloc: Global, most: u64) -> Result<Store, StoreFault>
        requires { most ≤ LAST_END }
        ensures opened { Opened D.tells (D.view self.old.one.now) (D.view self.old.two.now)
            (D.view self.new.one.now) (D.view self.new.two.now) result }
        ensures open { IfOk result (λ store. IsTrue store.log.is_open × (store.log.most ≡ most)) }
        ensures bad_log { (p : ℕ) → result ≡ Err (StoreFault.BadLog p) → IsTrue D.tells
            → IsBadPairJournalAt p (D.view self.old.one.now).content
            (D.view self.old.two.now).content }
        ensures few { (f : TheFault) → result ≡ Err f → IsOfReading f }
        ensures counts { CountedPair (result ≡ Err StoreFault.Disk)
            (D.view self.old.one.now).faults (D.view self.old.two.now).faults
            (D.view self.new.one.now).faults (D.view self.new.two.now).faults }
        ensures same { SamePair self.old self.new }
    {
        Store::open(alloc, self.one, self.two, most)
    }
}
