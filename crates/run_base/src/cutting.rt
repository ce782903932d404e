//! Cutting the journal of two disks.

ghost use Rattle.std.specs.Prelude.{◌≡◌, ◌⊎◌, ℕ, List, Ok, Err, IsTrue};
ghost use Rattle.at_event.specs.declared.refusal.Refusal.{Refusal as TheRefusal};
ghost use Rattle.cut_law.specs.Cut.{cut as cut_of};
ghost use Rattle.gate_log.specs.Pick.{LeavesSide, view_of_side};
ghost use Rattle.relay_disk.specs.Moments.{PairLeavesOnly, TimeGoesOn};
ghost use Rattle.relay_row.specs.declared.row.Row.{Row as TheRow};
ghost use Rattle.relay_store.specs.Journals.{IsPairImageOf};
ghost use Rattle.store_cut.specs.Rewriting.{IsOfRewriting};
ghost use Rattle.relay_store.specs.Store.{IsKept, Keeps, seen_in};
ghost use Rattle.relay_store.specs.declared.fault.StoreFault.{StoreFault as TheFault};
ghost use Rattle.at_cid.specs.Counts.{CountedPair};
ghost use Rattle.run_base.specs.Cutting.{CutCame};
ghost use Rattle.run_base.specs.Place.{SamePair};

use crate::pair::Pair;
use gate_log::Side;
use relay_disk::Disk;
use relay_store::{Store, StoreFault};
use std::alloc::Global;
use store_cut::{CutDone, cut};

impl<D: Disk> Pair<'_, '_, D> {
    /// Takes the events up to a number out of the journal, as `store_cut::cut` does, from the disk of the store's side onto the other.
    pub fn cut(&mut self, alloc: Global, store: &mut Store, seq: u64) -> Result<CutDone, StoreFault>
        requires open { IsTrue (seen_in store.old).log.is_open }
        requires on { IsTrue D.tells → IsKept (seen_in store.old)
            (view_of_side (seen_in store.old).side
            (D.view self.old.one.now) (D.view self.old.two.now)) }
        requires side { IsTrue D.tells → LeavesSide (seen_in store.old).side
            (D.view self.old.one.now) (D.view self.old.two.now) }
        ensures untouched { (why : TheRefusal) → result ≡ Ok (CutDone.Refused why)
            → (self.new.one.now ≡ self.old.one.now) × (self.new.two.now ≡ self.old.two.now) }
        ensures came { IsTrue D.tells → (J : List TheRow)
            → Keeps J (seen_in store.old) (view_of_side (seen_in store.old).side
            (D.view self.old.one.now) (D.view self.old.two.now))
            → CutCame (seen_in store.old).log.most J seq
            (D.view self.new.one.now) (D.view self.new.two.now) result }
        ensures moments { IsTrue D.tells → (J : List TheRow)
            → Keeps J (seen_in store.old) (view_of_side (seen_in store.old).side
            (D.view self.old.one.now) (D.view self.old.two.now))
            → PairLeavesOnly (λ c d. IsPairImageOf J c d ⊎ IsPairImageOf (cut_of J seq) c d)
            (D.view self.old.one.now) (D.view self.new.one.now)
            (D.view self.old.two.now) (D.view self.new.two.now) }
        ensures time { IsTrue D.tells
            → TimeGoesOn (D.view self.old.one.now) (D.view self.new.one.now)
            × TimeGoesOn (D.view self.old.two.now) (D.view self.new.two.now) }
        ensures few { (f : TheFault) → result ≡ Err f → IsOfRewriting f }
        ensures counts { CountedPair (result ≡ Err StoreFault.Disk)
            (D.view self.old.one.now).faults (D.view self.old.two.now).faults
            (D.view self.new.one.now).faults (D.view self.new.two.now).faults }
        ensures same { SamePair self.old self.new }
    {
        match store.side() {
            Side::One => cut(store, alloc, self.one, self.two, seq),
            Side::Two => cut(store, alloc, self.two, self.one, seq),
        }
    }
}
