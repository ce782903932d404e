//! Operators' commands on the disk that the store is open on.

ghost use Rattle.std.specs.Prelude.{◌≡◌, ◌≢◌, ◌≤◌, List, Err, length, IsTrue};
ghost use Rattle.at_form.specs.declared.forms.TheConstants.{LONGEST_SHORT_TEXT};
ghost use Rattle.at_syntax.specs.Did.{is_did};
ghost use Rattle.gate_log.specs.Pick.{other_side, view_of_side};
ghost use Rattle.relay_row.specs.declared.row.Row.{Row as TheRow};
ghost use Rattle.relay_step.specs.Asked.{AskedInVain};
ghost use Rattle.relay_step.specs.Around.{SameAsked, around_of};
ghost use Rattle.relay_step.specs.Causes.{CameToNothing, OneTaken, SpendsNone};
ghost use Rattle.relay_step.specs.Commands.{EndsBehind, EndsFetched, OperatedAt, SpentFetching, SyncedAt};
ghost use Rattle.store_take.specs.Commands.{CommandDone, IsOfOperating};
ghost use Rattle.relay_store.specs.Store.{IsKept, IsOf, seen_in};
ghost use Rattle.relay_store.specs.declared.fault.StoreFault.{StoreFault as TheFault};
ghost use Rattle.at_cid.specs.Counts.{Counted, CountedPair};
ghost use Rattle.run_base.specs.Place.{SamePair, disk_of};

use crate::pair::Pair;
use at_authority::Judges;
use gate_log::Side;
use relay_disk::Disk;
use relay_io::{Clock, Repos};
use relay_step::Asked;
use relay_store::{Store, StoreFault};
use std::alloc::Global;
use store_take::{Done, operate, sync_now};

impl<D: Disk> Pair<'_, '_, D> {
    /// Takes an account down or restores it, as `store_take::operate` does, on the disk of the store's side. The clock alone is asked.
    pub fn operate<P, R, C: Clock>(
        &mut self,
        alloc: Global,
        store: &mut Store,
        did: &str,
        down: bool,
        time: &str,
        asked: &mut Asked<P, R, C>,
    ) -> Result<Done, StoreFault>
        requires open { IsTrue (seen_in store.old).log.is_open }
        requires on { IsTrue D.tells → IsKept (seen_in store.old)
            (view_of_side (seen_in store.old).side
            (D.view self.old.one.now) (D.view self.old.two.now)) }
        requires did { IsTrue (is_did did.now) }
        requires time { length time.now ≤ LONGEST_SHORT_TEXT }
        ensures commanded { let side = (seen_in store.old).side in
            let old = C.moments asked.old.clock.now in
            let new = C.moments asked.new.clock.now in
            (J : List TheRow) → IsOf J (seen_in store.old).core → CommandDone D.view D.tells J
            (λ command. OperatedAt C.tells (seen_in store.old).core did.now down time.now
            old command new)
            (IsTrue C.tells → OneTaken old new)
            (seen_in store.old) (seen_in store.new)
            (disk_of side self.old) (disk_of side self.new) result }
        ensures beside { disk_of (other_side (seen_in store.old).side) self.new
            ≡ disk_of (other_side (seen_in store.old).side) self.old }
        ensures few { (f : TheFault) → result ≡ Err f → IsOfOperating f }
        ensures seq_end { result ≡ Err StoreFault.SeqEnd
            → EndsBehind (seen_in store.old).core did.now down }
        ensures counts { CountedPair (result ≡ Err StoreFault.Disk)
            (D.view self.old.one.now).faults (D.view self.old.two.now).faults
            (D.view self.new.one.now).faults (D.view self.new.two.now).faults }
        ensures clock { Counted (result ≡ Err StoreFault.Clock)
            (C.faults asked.old.clock.now) (C.faults asked.new.clock.now) }
        ensures unasked { (asked.new.judges.now ≡ asked.old.judges.now)
            × (asked.new.repos.now ≡ asked.old.repos.now) }
        ensures same { SamePair self.old self.new }
        ensures same_asked { SameAsked asked.old asked.new }
    {
        match store.side() {
            Side::One => operate(store, alloc, self.one, did, down, time, asked.clock),
            Side::Two => operate(store, alloc, self.two, did, down, time, asked.clock),
        }
    }

    /// Fetches an account's repository and takes it over, as `store_take::sync_now` does, on the disk of the store's side.
    pub fn sync_now<P: Judges, R: Repos, C: Clock>(
        &mut self,
        alloc: Global,
        store: &mut Store,
        did: &str,
        time: &str,
        asked: &mut Asked<P, R, C>,
    ) -> Result<Done, StoreFault>
        requires open { IsTrue (seen_in store.old).log.is_open }
        requires on { IsTrue D.tells → IsKept (seen_in store.old)
            (view_of_side (seen_in store.old).side
            (D.view self.old.one.now) (D.view self.old.two.now)) }
        requires did { IsTrue (is_did did.now) }
        requires time { length time.now ≤ LONGEST_SHORT_TEXT }
        ensures commanded { let side = (seen_in store.old).side in
            let old = around_of P.panel C.moments R.repository asked.old in
            let new = around_of P.panel C.moments R.repository asked.new in
            (J : List TheRow) → IsOf J (seen_in store.old).core → CommandDone D.view D.tells J
            (λ command. SyncedAt C.tells R.tells (seen_in store.old).core did.now time.now
            old command new)
            (CameToNothing C.tells R.tells (AskedInVain old.panel did.now new.panel) old new)
            (seen_in store.old) (seen_in store.new)
            (disk_of side self.old) (disk_of side self.new) result }
        ensures beside { disk_of (other_side (seen_in store.old).side) self.new
            ≡ disk_of (other_side (seen_in store.old).side) self.old }
        ensures spent { result ≡ Err StoreFault.Authority
            → SpentFetching C.tells R.tells (seen_in store.old).core did.now
            (around_of P.panel C.moments R.repository asked.old)
            (around_of P.panel C.moments R.repository asked.new) }
        ensures seq_end { result ≡ Err StoreFault.SeqEnd
            → EndsFetched C.tells R.tells (seen_in store.old).core did.now
            (around_of P.panel C.moments R.repository asked.old)
            (around_of P.panel C.moments R.repository asked.new) }
        ensures unspent { result ≢ Err StoreFault.Authority
            → SpendsNone (P.panel asked.old.judges.now) (P.panel asked.new.judges.now) }
        ensures counts { CountedPair (result ≡ Err StoreFault.Disk)
            (D.view self.old.one.now).faults (D.view self.old.two.now).faults
            (D.view self.new.one.now).faults (D.view self.new.two.now).faults }
        ensures repos { Counted (result ≡ Err StoreFault.Repos)
            (R.faults asked.old.repos.now) (R.faults asked.new.repos.now) }
        ensures clock { Counted (result ≡ Err StoreFault.Clock)
            (C.faults asked.old.clock.now) (C.faults asked.new.clock.now) }
        ensures same { SamePair self.old self.new }
        ensures same_asked { SameAsked asked.old asked.new }
    {
        match store.side() {
            Side::One => sync_now(store, alloc, self.one, did, time, asked),
            Side::Two => sync_now(store, alloc, self.two, did, time, asked),
        }
    }
}
