//! Opening a store.

ghost use Rattle.std.specs.Prelude.{◌≡◌, ◌≢◌, ◌≤◌, ◌⊎◌, [], ℕ, List, Err, IsTrue, IfOk, OnOk};
ghost use Rattle.at_cid.specs.Counts.{Rose};
ghost use Rattle.relay_disk.specs.Disk.{Goes, Same, IsSynced};
ghost use Rattle.gate_log.specs.Log.{HoldsBodies as HasBodies, IsOn};
ghost use Rattle.gate_log.specs.Pick.{view_of_side};
ghost use Rattle.relay_core.specs.Entries.{Holds};
ghost use Rattle.gate_log.specs.declared.limits.TheConstants.{LAST_END};
ghost use Rattle.relay_store.specs.Journals.{IsBadPairJournalAt};
ghost use Rattle.relay_store.specs.Opening.{Opened, IsBadAmong, IsLoaded, IsOfReading};
ghost use Rattle.relay_store.specs.declared.fault.StoreFault.{StoreFault as TheFault};

use crate::StoreFault;
use crate::loading::load;
use crate::pending::Pending;
use crate::store::Store;
use event_window::Window;
use gate_log::{Log, Side, open_pair};
use relay_core::Core;
use relay_disk::Disk;
use std::alloc::Global;

// Learns the journal of the log that is on this side of two disks, of which nothing is known yet.
fn load_side<D: Disk>(
    alloc: Global,
    side: Side,
    log: &Log,
    one: &mut D,
    two: &mut D,
    core: &mut Core,
    window: &mut Window,
) -> Result<(), StoreFault>
    requires on { IsTrue D.tells → IsOn
        (view_of_side side (D.view one.old) (D.view two.old)) log.now }
    requires core { Holds core.old [] }
    requires window { window.old.places ≡ [] }
    ensures loaded { OnOk result (IsTrue D.tells → (bodies : List (List ℕ))
        → HasBodies bodies log.now (view_of_side side (D.view one.old) (D.view two.old))
        → IsLoaded log.now.format bodies core.new window.new.places) }
    ensures bad_log { (p : ℕ) → result ≡ Err (StoreFault.BadLog p) → IsTrue D.tells
        → (bodies : List (List ℕ))
        → HasBodies bodies log.now (view_of_side side (D.view one.old) (D.view two.old))
        → IsBadAmong p log.now.format bodies }
    ensures one { Goes Same (D.view one.old) (D.view one.new) }
    ensures two { Goes Same (D.view two.old) (D.view two.new) }
    ensures holds { IsTrue D.tells → (bodies : List (List ℕ))
        → HasBodies bodies log.now (view_of_side side (D.view one.old) (D.view two.old))
        → HasBodies bodies log.now (view_of_side side (D.view one.new) (D.view two.new)) }
    ensures disk { result ≡ Err StoreFault.Disk
        → Rose (D.view one.old).faults (D.view one.new).faults
        ⊎ Rose (D.view two.old).faults (D.view two.new).faults }
    ensures few { (f : TheFault) → result ≡ Err f → IsOfReading f }
    ensures steady { result ≢ Err StoreFault.Disk
        → ((D.view one.new).faults ≡ (D.view one.old).faults)
        × ((D.view two.new).faults ≡ (D.view two.old).faults) }
    ensures some { (f : TheFault) → result ≡ Err f → IsTrue D.tells
        → HasBodies [] log.now (view_of_side side (D.view one.old) (D.view two.old)) → ⊥ }
{
    match side {
        Side::One => load(alloc, log, one, core, window),
        Side::Two => load(alloc, log, two, core, window),
    }
}

impl Store {
    /// Opens the store of two disks, on the one that has the log; where neither has one and the second is empty, it is made on the
    /// first. No row is to end past `most`, which is in bytes. Each body is read once, and no message is kept.
    pub fn open<D: Disk>(
        alloc: Global,
        disk: &mut D,
        other: &mut D,
        most: u64,
    ) -> Result<Store, StoreFault>
        requires { most ≤ LAST_END }
        ensures opened { Opened D.tells (D.view disk.old) (D.view other.old) (D.view disk.new)
            (D.view other.new) result }
        ensures open { IfOk result (λ store. IsTrue store.log.is_open × (store.log.most ≡ most)) }
        ensures synced { OnOk result (IsTrue D.tells → IsSynced (D.view disk.new)
            × IsSynced (D.view other.new)) }
        ensures bad_log { (p : ℕ) → result ≡ Err (StoreFault.BadLog p) → IsTrue D.tells
            → IsBadPairJournalAt p (D.view disk.old).content (D.view other.old).content }
        ensures disk { result ≡ Err StoreFault.Disk
            → Rose (D.view disk.old).faults (D.view disk.new).faults
            ⊎ Rose (D.view other.old).faults (D.view other.new).faults }
        ensures counts { ((D.view disk.old).faults ≤ (D.view disk.new).faults)
            × ((D.view other.old).faults ≤ (D.view other.new).faults) }
        ensures few { (f : TheFault) → result ≡ Err f → IsOfReading f }
        ensures steady { result ≢ Err StoreFault.Disk
            → ((D.view disk.new).faults ≡ (D.view disk.old).faults)
            × ((D.view other.new).faults ≡ (D.view other.old).faults) }
    {
        let mut core = Core::new(alloc);
        let mut window = Window::new(alloc);
        let found = match open_pair(alloc, disk, other, most) {
            Ok(found) => found,
            Err(fault) => return Err(StoreFault::from(fault)),
        };
        let (side, log) = found;
        load_side(alloc, side, &log, disk, other, &mut core, &mut window)?;
        let pending = Pending::new(alloc);
        Ok(Store {
            log,
            side,
            core,
            window,
            pending,
        })
    }
}
