//! Messages of hosts taken, on the disk that the store is open on.

ghost use Rattle.std.specs.Prelude.{◌≡◌, ◌≢◌, ◌≤◌, ◌⊎◌, [], Some, None, ℕ, List, length, false, IsTrue};
ghost use Rattle.at_authority.specs.Panels.{IsSpent};
ghost use Rattle.gate_log.specs.Pick.{other_side, view_of_side};
ghost use Rattle.relay_row.specs.declared.limits.TheConstants.{MOST_ROWS};
ghost use Rattle.relay_row.specs.declared.row.Row.{Row as TheRow};
ghost use Rattle.relay_step.specs.Around.{SameAsked, around_of};
ghost use Rattle.relay_step.specs.Causes.{SpendsNone};
ghost use Rattle.store_take.specs.Batches.{Batched, DiskFailed, HasEnd, scene};
ghost use Rattle.relay_store.specs.Store.{IsKept, IsOf, seen_in};
ghost use Rattle.store_take.specs.Taking.{AreOfHosts};
ghost use Rattle.at_cid.specs.Counts.{CountedPair, CountedBut};
ghost use Rattle.run_base.specs.Place.{SamePair, disk_of};

use crate::pair::Pair;
use at_authority::Judges;
use gate_log::Side;
use relay_disk::Disk;
use relay_io::{Clock, Repos};
use relay_step::Asked;
use relay_store::{Store, StoreFault};
use std::alloc::Global;
use store_take::{Batch, Message, take_all};

impl<D: Disk> Pair<'_, '_, D> {
    /// Takes 1 to 64 messages in order, as `store_take::take_all` does, on the disk of the store's side.
    pub fn take_all<P: Judges, R: Repos, C: Clock>(
        &mut self,
        alloc: Global,
        store: &mut Store,
        group: &[Message],
        asked: &mut Asked<P, R, C>,
    ) -> Batch
        requires open { IsTrue (seen_in store.old).log.is_open }
        requires on { IsTrue D.tells → IsKept (seen_in store.old)
            (view_of_side (seen_in store.old).side
            (D.view self.old.one.now) (D.view self.old.two.now)) }
        requires some { 1 ≤ length group.now }
        requires few { length group.now ≤ MOST_ROWS }
        requires hosts { AreOfHosts group.now }
        ensures batched { let side = (seen_in store.old).side in
            let old = around_of P.panel C.moments R.repository asked.old in
            let new = around_of P.panel C.moments R.repository asked.new in
            (J : List TheRow) → IsOf J (seen_in store.old).core
            → Batched D.view D.tells C.tells R.tells J group.now
            (scene (seen_in store.old) (disk_of side self.old) old)
            (scene (seen_in store.new) (disk_of side self.new) new)
            result.outcomes.items result.fault }
        // Of any disk: no message has two outcomes, and unless a fault came each has one, or each up to the end of a host.
        ensures few { length result.outcomes.items ≤ length group.now }
        ensures all { result.fault ≡ None → (length result.outcomes.items ≡ length group.now)
            ⊎ HasEnd result.outcomes.items }
        ensures unanswered { result.fault ≡ Some StoreFault.Disk → result.outcomes.items ≡ [] }
        ensures on { result.fault ≢ Some StoreFault.Disk → IsTrue D.tells
            → IsKept (seen_in store.new) (view_of_side (seen_in store.old).side
            (D.view self.new.one.now) (D.view self.new.two.now)) }
        ensures open { result.fault ≢ Some StoreFault.Disk
            → IsTrue (seen_in store.new).log.is_open }
        ensures side { (seen_in store.new).side ≡ (seen_in store.old).side }
        ensures beside { disk_of (other_side (seen_in store.old).side) self.new
            ≡ disk_of (other_side (seen_in store.old).side) self.old }
        ensures counts { CountedPair (result.fault ≡ Some StoreFault.Disk)
            (D.view self.old.one.now).faults (D.view self.old.two.now).faults
            (D.view self.new.one.now).faults (D.view self.new.two.now).faults }
        // Behind a failure of the disk, what failed before it isn't told.
        ensures repos { CountedBut (result.fault ≡ Some StoreFault.Disk)
            (result.fault ≡ Some StoreFault.Repos)
            (R.faults asked.old.repos.now) (R.faults asked.new.repos.now) }
        ensures clock { CountedBut (result.fault ≡ Some StoreFault.Disk)
            (result.fault ≡ Some StoreFault.Clock)
            (C.faults asked.old.clock.now) (C.faults asked.new.clock.now) }
        ensures unspent { result.fault ≢ Some StoreFault.Disk
            → result.fault ≢ Some StoreFault.Authority
            → SpendsNone (P.panel asked.old.judges.now) (P.panel asked.new.judges.now) }
        ensures spent { result.fault ≡ Some StoreFault.Authority
            → (method : List ℕ) × IsSpent (P.panel asked.new.judges.now method) }
        ensures disk_failed { let side = (seen_in store.old).side in
            let old = around_of P.panel C.moments R.repository asked.old in
            let new = around_of P.panel C.moments R.repository asked.new in
            result.fault ≡ Some StoreFault.Disk
            → (J : List TheRow) → IsOf J (seen_in store.old).core
            → DiskFailed D.view D.tells C.tells R.tells J group.now
            (scene (seen_in store.old) (disk_of side self.old) old)
            (scene (seen_in store.new) (disk_of side self.new) new)
            ((C.faults asked.new.clock.now ≡ C.faults asked.old.clock.now)
            × (R.faults asked.new.repos.now ≡ R.faults asked.old.repos.now)
            × SpendsNone (P.panel asked.old.judges.now) (P.panel asked.new.judges.now)) }
        ensures closed { result.fault ≡ Some StoreFault.Disk
            → (seen_in store.new).log.is_open ≡ false }
        ensures same { SamePair self.old self.new }
        ensures same_asked { SameAsked asked.old asked.new }
    {
        match store.side() {
            Side::One => take_all(store, alloc, self.one, group, asked),
            Side::Two => take_all(store, alloc, self.two, group, asked),
        }
    }
}
