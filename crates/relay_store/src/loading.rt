//! Reading a log's bodies back.

ghost use Rattle.std.specs.Prelude.{◌≡◌, ◌≢◌, ◌≤◌, ◌<◌, ◌+◌, ◌++◌, ◌∷◌, [], ℕ, List, length, Err, IsTrue, IfOk, OnOk};
ghost use Rattle.at_cid.specs.Counts.{Rose};
ghost use Rattle.relay_disk.specs.Disk.{Goes, Same};
ghost use Rattle.gate_log.specs.Image.{made};
ghost use Rattle.gate_log.specs.Log.{HoldsBodies as HasBodies, IsOn};
ghost use Rattle.gate_log.specs.declared.limits.TheConstants.{BEFORE_BODY};
ghost use Rattle.relay_row.specs.Journal.{IsJournal};
ghost use Rattle.row_codec.specs.Left.{AreLeft};
ghost use Rattle.row_codec.specs.declared.fault.RowFault.{RowFault};
ghost use Rattle.relay_row.specs.declared.limits.TheConstants.{MOST_ROWS};
ghost use Rattle.relay_row.specs.declared.row.Row.{Row as TheRow};
ghost use Rattle.relay_core.specs.Entries.{Holds};
ghost use Rattle.relay_store.specs.Opening.{AreApplied, IsApplied, IsBadBody, IsLoaded, IsBadAmong, IsOfReading};
ghost use Rattle.relay_store.specs.Places.{places_in};
ghost use Rattle.relay_store.specs.declared.fault.StoreFault.{StoreFault as TheFault};

use crate::StoreFault;
use crate::applying::learn_row;
use event_window::Window;
use gate_log::Log;
use relay_core::Core;
use relay_disk::Disk;
use row_codec::{BodyRows, RowFault};
use std::alloc::Global;

// Learns the rows that are left of the body at this place.
fn apply_rows(
    core: &mut Core,
    window: &mut Window,
    place: u64,
    rows: &mut BodyRows,
) -> Result<(), RowFault>
    requires few { rows.old.count ≤ MOST_ROWS }
    ensures applied { OnOk result ((there : List TheRow) × AreLeft there rows.old
        × AreApplied place there core.old core.new window.old.places window.new.places) }
    ensures bad { result ≡ Err RowFault.BadRow → (J : List TheRow) → Holds core.old J
        → (there : List TheRow) → AreLeft there rows.old → IsJournal (J ++ there) → ⊥ }
{
    let mut index = 0;
    'rows: while let Some(mut row) = rows.next()? {
        if !core.is_next(&row) {
            return Err(RowFault::BadRow);
        }
        learn_row(core, window, place, index, &mut row)?;
        drop(row);
        index += 1;
    }
    Ok(())
}

// Learns the body at this place.
fn apply_body(
    alloc: Global,
    core: &mut Core,
    window: &mut Window,
    place: u64,
    body: &[u8],
) -> Result<(), RowFault>
    ensures applied { OnOk result ((J : List TheRow) → Holds core.old J → IsJournal J
        → IsApplied place body.now J core.new window.old.places window.new.places) }
    ensures bad { result ≡ Err RowFault.BadRow → (J : List TheRow) → Holds core.old J
        → IsBadBody J body.now }
{
    let mut rows = BodyRows::of(alloc, body)?;
    apply_rows(core, window, place, &mut rows)
}

// Reads the body at this place into a room and applies it, and answers the next place.
fn load_body<D: Disk>(
    alloc: Global,
    log: &Log,
    disk: &mut D,
    place: u64,
    room: &mut Vec<u8>,
    core: &mut Core,
    window: &mut Window,
) -> Result<u64, StoreFault>
    requires on { IsTrue D.tells → IsOn (D.view disk.old) log.now }
    requires below { place < log.now.end }
    ensures next { IfOk result (λ next. (place < next) × (next ≤ log.now.end)) }
    ensures applied { IfOk result (λ next. IsTrue D.tells
        → (before : List (List ℕ)) (body : List ℕ) (after : List (List ℕ)) (J : List TheRow)
        → HasBodies (before ++ body ∷ after) log.now (D.view disk.old)
        → place ≡ length (made log.now.format before) → Holds core.old J → IsJournal J
        → (next ≡ place + BEFORE_BODY + length body)
        × IsApplied place body J core.new window.old.places window.new.places) }
    ensures bad_log { (p : ℕ) → result ≡ Err (StoreFault.BadLog p) → IsTrue D.tells
        → (before : List (List ℕ)) (body : List ℕ) (after : List (List ℕ)) (J : List TheRow)
        → HasBodies (before ++ body ∷ after) log.now (D.view disk.old)
        → place ≡ length (made log.now.format before) → Holds core.old J
        → (p ≡ place) × IsBadBody J body }
    ensures goes { Goes Same (D.view disk.old) (D.view disk.new) }
    ensures holds { IsTrue D.tells → (bodies : List (List ℕ))
        → HasBodies bodies log.now (D.view disk.old) → HasBodies bodies log.now (D.view disk.new) }
    ensures on { IsTrue D.tells → IsOn (D.view disk.new) log.now }
    ensures disk { result ≡ Err StoreFault.Disk
        → Rose (D.view disk.old).faults (D.view disk.new).faults }
    ensures few { (f : TheFault) → result ≡ Err f → IsOfReading f }
    ensures steady { result ≢ Err StoreFault.Disk
        → (D.view disk.new).faults ≡ (D.view disk.old).faults }
{
    let next = log.read_into(disk, place, room)?;
    match apply_body(alloc, core, window, place, room.as_slice()) {
        Ok(()) => Ok(next),
        Err(RowFault::BadRow) => Err(StoreFault::BadLog(place)),
        Err(RowFault::Memory) => Err(StoreFault::Memory),
    }
}

/// Learns the journal of a log's disk, of which nothing is known yet.
pub(crate) fn load<D: Disk>(
    alloc: Global,
    log: &Log,
    disk: &mut D,
    core: &mut Core,
    window: &mut Window,
) -> Result<(), StoreFault>
    requires on { IsTrue D.tells → IsOn (D.view disk.old) log.now }
    requires core { Holds core.old [] }
    requires window { window.old.places ≡ [] }
    ensures loaded { OnOk result (IsTrue D.tells → (bodies : List (List ℕ))
        → HasBodies bodies log.now (D.view disk.old)
        → IsLoaded log.now.format bodies core.new window.new.places) }
    ensures bad_log { (p : ℕ) → result ≡ Err (StoreFault.BadLog p) → IsTrue D.tells
        → (bodies : List (List ℕ))
        → HasBodies bodies log.now (D.view disk.old) → IsBadAmong p log.now.format bodies }
    ensures goes { Goes Same (D.view disk.old) (D.view disk.new) }
    ensures holds { IsTrue D.tells → (bodies : List (List ℕ))
        → HasBodies bodies log.now (D.view disk.old) → HasBodies bodies log.now (D.view disk.new) }
    ensures disk { result ≡ Err StoreFault.Disk
        → Rose (D.view disk.old).faults (D.view disk.new).faults }
    ensures few { (f : TheFault) → result ≡ Err f → IsOfReading f }
    ensures steady { result ≢ Err StoreFault.Disk
        → (D.view disk.new).faults ≡ (D.view disk.old).faults }

    // A log without bodies is learned without a fault.
    ensures some { (f : TheFault) → result ≡ Err f → IsTrue D.tells
        → HasBodies [] log.now (D.view disk.old) → ⊥ }
{
    let mut room = Vec::new(alloc);
    let mut place = log.first();
    'bodies: while place < log.end() {
        place = load_body(alloc, log, disk, place, &mut room, core, window)?;
    }
    Ok(())
}
