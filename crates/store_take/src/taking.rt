//! Messages of hosts taken.

ghost use Rattle.std.specs.Prelude.{◌≡◌, ◌≢◌, ◌⊎◌, ◌≤◌, [], ◌∷◌, Some, None, ℕ, List, length, false, IsTrue, IfSome};
ghost use Rattle.at_authority.specs.Panels.{IsSpent};
ghost use Rattle.at_cid.specs.Counts.{Rose};
ghost use Rattle.at_syntax.specs.Host.{is_host};
ghost use Rattle.relay_row.specs.declared.limits.TheConstants.{MOST_ROWS};
ghost use Rattle.relay_row.specs.declared.row.Row.{Row as TheRow};
ghost use Rattle.relay_step.specs.Around.{SameAsked, around_of};
ghost use Rattle.relay_step.specs.Causes.{SpendsNone};
ghost use Rattle.store_take.specs.Batches.{Batched, DiskFailed, HasEnd, scene, outcomes_in, fault_in, message_from};
ghost use Rattle.relay_store.specs.Faults.{IsRisenOf};
ghost use Rattle.relay_store.specs.Store.{IsKept, IsOf, seen_in};
ghost use Rattle.store_take.specs.Taking.{AreOfHosts};

use crate::batch::Batch;
use crate::committing::commit;
use crate::gathering::gather;
use crate::message::{Message, MessageRef};
use crate::outcome::Outcome;
use crate::preparing::prepare;
use at_authority::Judges;
use relay_disk::Disk;
use relay_io::{Clock, Repos};
use relay_step::Asked;
use relay_store::{Store, StoreFault};
use std::alloc::Global;

/// Takes 1 to 64 messages in order, up to the end of a host or to the first fault, and makes their rows durable at once, in one
/// body. At the fault `Disk` nothing is answered, and the store is closed: the disks have to be opened again.
pub fn take_all<D: Disk, P: Judges, R: Repos, C: Clock>(
    store: &mut Store,
    alloc: Global,
    disk: &mut D,
    group: &[Message],
    asked: &mut Asked<P, R, C>,
) -> Batch
    requires open { IsTrue store.old.log.is_open }
    requires on { IsTrue D.tells → IsKept (seen_in store.old) (D.view disk.old) }
    requires some { 1 ≤ length group.now }
    requires few { length group.now ≤ MOST_ROWS }
    requires hosts { AreOfHosts group.now }
    ensures batched { let old = around_of P.panel C.moments R.repository asked.old in
        let new = around_of P.panel C.moments R.repository asked.new in
        (J : List TheRow) → IsOf J store.old.core
        → Batched D.view D.tells C.tells R.tells J group.now
        (scene (seen_in store.old) disk.old old)
        (scene (seen_in store.new) disk.new new)
        result.outcomes.items result.fault }
    // Of any disk: no message has two outcomes, and unless a fault came each has one, or each up to the end of a host.
    ensures few { length result.outcomes.items ≤ length group.now }
    ensures all { result.fault ≡ None → (length result.outcomes.items ≡ length group.now)
        ⊎ HasEnd result.outcomes.items }
    ensures on { result.fault ≢ Some StoreFault.Disk → IsTrue D.tells
        → IsKept (seen_in store.new) (D.view disk.new) }
    ensures open { result.fault ≢ Some StoreFault.Disk → IsTrue store.new.log.is_open }
    ensures closed { result.fault ≡ Some StoreFault.Disk → store.new.log.is_open ≡ false }
    ensures unanswered { result.fault ≡ Some StoreFault.Disk → result.outcomes.items ≡ [] }
    ensures side { store.new.side ≡ store.old.side }
    ensures risen { IfSome result.fault
        (IsRisenOf (Rose (D.view disk.old).faults (D.view disk.new).faults)
        (Rose (R.faults asked.old.repos.now) (R.faults asked.new.repos.now))
        (Rose (C.faults asked.old.clock.now) (C.faults asked.new.clock.now))) }
    ensures disk_counts { (D.view disk.old).faults ≤ (D.view disk.new).faults }
    ensures clock_counts { C.faults asked.old.clock.now ≤ C.faults asked.new.clock.now }
    ensures repos_count { R.faults asked.old.repos.now ≤ R.faults asked.new.repos.now }
    ensures disk_steady { result.fault ≢ Some StoreFault.Disk
        → (D.view disk.new).faults ≡ (D.view disk.old).faults }
    ensures clock_steady { result.fault ≢ Some StoreFault.Disk
        → result.fault ≢ Some StoreFault.Clock
        → C.faults asked.new.clock.now ≡ C.faults asked.old.clock.now }
    ensures repos_steady { result.fault ≢ Some StoreFault.Disk
        → result.fault ≢ Some StoreFault.Repos
        → R.faults asked.new.repos.now ≡ R.faults asked.old.repos.now }
    ensures unspent { result.fault ≢ Some StoreFault.Disk
        → result.fault ≢ Some StoreFault.Authority
        → SpendsNone (P.panel asked.old.judges.now) (P.panel asked.new.judges.now) }
    ensures spent { result.fault ≡ Some StoreFault.Authority
        → (method : List ℕ) × IsSpent (P.panel asked.new.judges.now method) }
    ensures disk_failed { let old = around_of P.panel C.moments R.repository asked.old in
        let new = around_of P.panel C.moments R.repository asked.new in
        result.fault ≡ Some StoreFault.Disk → (J : List TheRow)
        → IsOf J store.old.core → DiskFailed D.view D.tells C.tells R.tells J group.now
        (scene (seen_in store.old) disk.old old)
        (scene (seen_in store.new) disk.new new)
        ((C.faults asked.new.clock.now ≡ C.faults asked.old.clock.now)
        × (R.faults asked.new.repos.now ≡ R.faults asked.old.repos.now)
        × SpendsNone (P.panel asked.old.judges.now) (P.panel asked.new.judges.now)) }
    ensures same { SameAsked asked.old asked.new }
{
    match store.pending.start() {
        Ok(()) => {}
        Err(_) => {
            return Batch {
                outcomes: Vec::new(alloc),
                fault: Some(StoreFault::Memory),
            };
        }
    }
    let batch = gather(
        alloc,
        &store.log,
        &mut store.core,
        &mut store.window,
        &mut store.pending,
        group,
        asked,
    );
    match commit(&mut store.log, disk, &mut store.pending) {
        Ok(()) => batch,
        Err(fault) => Batch {
            outcomes: Vec::new(alloc),
            fault: Some(fault),
        },
    }
}

/// Takes one message, as `take_all` takes a group of one.
pub fn take<D: Disk, P: Judges, R: Repos, C: Clock>(
    store: &mut Store,
    alloc: Global,
    disk: &mut D,
    host: &str,
    message: &[u8],
    asked: &mut Asked<P, R, C>,
) -> Result<Outcome, StoreFault>
    requires open { IsTrue store.old.log.is_open }
    requires on { IsTrue D.tells → IsKept (seen_in store.old) (D.view disk.old) }
    requires host { IsTrue (is_host host.now) }
    ensures batched { let old = around_of P.panel C.moments R.repository asked.old in
        let new = around_of P.panel C.moments R.repository asked.new in
        (J : List TheRow) → IsOf J store.old.core
        → Batched D.view D.tells C.tells R.tells J (message_from host.now message.now ∷ [])
        (scene (seen_in store.old) disk.old old)
        (scene (seen_in store.new) disk.new new)
        (outcomes_in result) (fault_in result) }
    ensures on { fault_in result ≢ Some StoreFault.Disk → IsTrue D.tells
        → IsKept (seen_in store.new) (D.view disk.new) }
    ensures open { fault_in result ≢ Some StoreFault.Disk → IsTrue store.new.log.is_open }
    ensures closed { fault_in result ≡ Some StoreFault.Disk → store.new.log.is_open ≡ false }
    ensures side { store.new.side ≡ store.old.side }
    ensures risen { IfSome (fault_in result)
        (IsRisenOf (Rose (D.view disk.old).faults (D.view disk.new).faults)
        (Rose (R.faults asked.old.repos.now) (R.faults asked.new.repos.now))
        (Rose (C.faults asked.old.clock.now) (C.faults asked.new.clock.now))) }
    ensures disk_counts { (D.view disk.old).faults ≤ (D.view disk.new).faults }
    ensures clock_counts { C.faults asked.old.clock.now ≤ C.faults asked.new.clock.now }
    ensures repos_count { R.faults asked.old.repos.now ≤ R.faults asked.new.repos.now }
    ensures disk_steady { fault_in result ≢ Some StoreFault.Disk
        → (D.view disk.new).faults ≡ (D.view disk.old).faults }
    ensures clock_steady { fault_in result ≢ Some StoreFault.Disk
        → fault_in result ≢ Some StoreFault.Clock
        → C.faults asked.new.clock.now ≡ C.faults asked.old.clock.now }
    ensures repos_steady { fault_in result ≢ Some StoreFault.Disk
        → fault_in result ≢ Some StoreFault.Repos
        → R.faults asked.new.repos.now ≡ R.faults asked.old.repos.now }
    ensures unspent { fault_in result ≢ Some StoreFault.Disk
        → fault_in result ≢ Some StoreFault.Authority
        → SpendsNone (P.panel asked.old.judges.now) (P.panel asked.new.judges.now) }
    ensures spent { fault_in result ≡ Some StoreFault.Authority
        → (method : List ℕ) × IsSpent (P.panel asked.new.judges.now method) }
    ensures disk_alone { fault_in result ≡ Some StoreFault.Disk
        → (C.faults asked.new.clock.now ≡ C.faults asked.old.clock.now)
        × (R.faults asked.new.repos.now ≡ R.faults asked.old.repos.now)
        × SpendsNone (P.panel asked.old.judges.now) (P.panel asked.new.judges.now) }
    ensures same { SameAsked asked.old asked.new }
{
    match store.pending.start() {
        Ok(()) => {}
        Err(_) => return Err(StoreFault::Memory),
    }
    let lent = MessageRef {
        host,
        bytes: message,
    };
    let outcome = match prepare(
        alloc,
        &store.log,
        &mut store.core,
        &mut store.window,
        &mut store.pending,
        lent,
        asked,
    ) {
        Ok(outcome) => outcome,
        Err(fault) => return Err(fault),
    };
    match commit(&mut store.log, disk, &mut store.pending) {
        Ok(()) => Ok(outcome),
        Err(fault) => Err(fault),
    }
}
