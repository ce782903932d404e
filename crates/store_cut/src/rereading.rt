//! Reading a journal's rows again, body by body.

ghost use Rattle.std.specs.Prelude.{◌≡◌, ◌≢◌, ◌≤◌, ◌<◌, ◌+◌, ◌++◌, ◌∷◌, [], ℕ, List, length, take, true, IsTrue, IfOk, OnOk, OnErr};
ghost use Rattle.std.specs.List.{list_all};
ghost use Rattle.at_cid.specs.Counts.{Rose};
ghost use Rattle.relay_disk.specs.Disk.{Goes, Same};
ghost use Rattle.gate_log.specs.Image.{made};
ghost use Rattle.gate_log.specs.Log.{HoldsBodies as HasBodies, IsOn};
ghost use Rattle.gate_log.specs.declared.limits.TheConstants.{BEFORE_BODY};
ghost use Rattle.row_codec.specs.Bodies.{IsBody, rows_body};
ghost use Rattle.relay_row.specs.Journal.{IsJournal};
ghost use Rattle.relay_row.specs.Rules.{is_row};
ghost use Rattle.relay_row.specs.declared.row.Row.{Row as TheRow};
ghost use Rattle.relay_core.specs.Entries.{Holds};
ghost use Rattle.relay_store.specs.Journals.{AllBodies, bytes_of, joined};
ghost use Rattle.relay_store.specs.Opening.{IsOfReading};
ghost use Rattle.store_cut.specs.Rereading.{BreaksOrder, GrowsInOrder, IsOfSome};
ghost use Rattle.store_cut.specs.Rewriting.{AllShort};
ghost use Rattle.relay_store.specs.declared.fault.StoreFault.{StoreFault as TheFault};

use event_window::Place;
use gate_log::Log;
use relay_core::Core;
use relay_disk::Disk;
use relay_row::Row;
use relay_store::{StoreFault, read_body};
use row_codec::{RowFault, read_rows};
use std::alloc::Global;
use std::collections::VecDeque;

/// The rows of the body at this place, which is read into a room, and the place of the next body.
pub(crate) fn body_at<D: Disk>(
    alloc: Global,
    log: &Log,
    disk: &mut D,
    place: u64,
    room: &mut Vec<u8>,
) -> Result<(Vec<Row>, u64), StoreFault>
    requires on { IsTrue D.tells → IsOn (D.view disk.old) log.now }
    ensures next { IfOk result (λ found. (place < found.1) × (found.1 ≤ log.now.end)) }
    ensures formed { IfOk result (λ found. list_all is_row found.0.items ≡ true) }
    // Each of them has room in the body, so that one of it alone is no longer.
    ensures each { IfOk result (λ found. AllShort found.0.items) }
    ensures rows { IfOk result (λ found. IsTrue D.tells
        → (before : List (List TheRow)) (there : List TheRow) (after : List (List TheRow))
        → IsBody there (rows_body there)
        → HasBodies (bytes_of (before ++ there ∷ after)) log.now (D.view disk.old)
        → place ≡ length (made log.now.format (bytes_of before))
        → (found.0.items ≡ there) × (found.1 ≡ place + BEFORE_BODY + length (rows_body there))) }
    ensures no_bad_log { (p : ℕ) → result ≡ Err (StoreFault.BadLog p) → IsTrue D.tells
        → (before : List (List TheRow)) (there : List TheRow) (after : List (List TheRow))
        → IsBody there (rows_body there)
        → HasBodies (bytes_of (before ++ there ∷ after)) log.now (D.view disk.old)
        → place ≡ length (made log.now.format (bytes_of before)) → ⊥ }
    ensures goes { Goes Same (D.view disk.old) (D.view disk.new) }
    ensures holds { IsTrue D.tells → (bodies : List (List ℕ))
        → HasBodies bodies log.now (D.view disk.old) → HasBodies bodies log.now (D.view disk.new) }
    ensures on { IsTrue D.tells → IsOn (D.view disk.new) log.now }
    ensures disk { result ≡ Err StoreFault.Disk
        → Rose (D.view disk.old).faults (D.view disk.new).faults }
    ensures steady { OnOk result ((D.view disk.new).faults ≡ (D.view disk.old).faults) }
    ensures no_fault { OnErr result (result ≢ Err StoreFault.Disk
        → (D.view disk.new).faults ≡ (D.view disk.old).faults) }
    ensures few { (f : TheFault) → result ≡ Err f → IsOfReading f }
{
    let next = match read_body(log, disk, place, room) {
        Ok(next) => next,
        Err(fault) => return Err(StoreFault::from(fault)),
    };
    match read_rows(alloc, room.as_slice()) {
        Ok(rows) => Ok((rows.into_vec(), next)),
        Err(RowFault::BadRow) => Err(StoreFault::BadLog(place)),
        Err(RowFault::Memory) => Err(StoreFault::Memory),
    }
}

// Moves a state by rows that were read of the body at a place, as long as they keep the order.
fn fold_rows(core: &mut Core, place: u64, rows: Vec<Row>) -> Result<(), StoreFault>
    ensures moved { OnOk result ((J : List TheRow) → Holds core.old J
        → Holds core.new (J ++ rows.items)) }
    ensures ordered { OnOk result (GrowsInOrder rows.items core.old) }
    ensures bad_log { (p : ℕ) → result ≡ Err (StoreFault.BadLog p)
        → BreaksOrder rows.items core.old }
    ensures no_disk { result ≡ Err StoreFault.Disk → ⊥ }
    ensures few { (f : TheFault) → result ≡ Err f → IsOfReading f }
{
    let mut left = VecDeque::from_vec(rows);
    'rows: while let Some(mut row) = left.pop_front() {
        if !core.is_next(&row) {
            return Err(StoreFault::BadLog(place));
        }
        let learned = core.learn(&mut row);
        drop(row);
        learned?;
    }
    Ok(())
}

// Moves the state of the empty journal by the rows of a log's bodies up to the one at a place.
fn fold_before<D: Disk>(
    alloc: Global,
    log: &Log,
    disk: &mut D,
    upto: u64,
    room: &mut Vec<u8>,
    core: &mut Core,
) -> Result<(), StoreFault>
    requires on { IsTrue D.tells → IsOn (D.view disk.old) log.now }
    requires core { Holds core.old [] }
    ensures known { OnOk result (IsOfSome core.new) }
    ensures core { OnOk result (IsTrue D.tells → (before after : List (List TheRow))
        → AllBodies (before ++ after)
        → HasBodies (bytes_of (before ++ after)) log.now (D.view disk.old)
        → upto ≡ length (made log.now.format (bytes_of before))
        → Holds core.new (joined before)) }
    ensures no_bad_log { (p : ℕ) → result ≡ Err (StoreFault.BadLog p) → IsTrue D.tells
        → (before after : List (List TheRow)) → AllBodies (before ++ after)
        → HasBodies (bytes_of (before ++ after)) log.now (D.view disk.old)
        → upto ≡ length (made log.now.format (bytes_of before))
        → IsJournal (joined (before ++ after)) → ⊥ }
    ensures goes { Goes Same (D.view disk.old) (D.view disk.new) }
    ensures holds { IsTrue D.tells → (bodies : List (List ℕ))
        → HasBodies bodies log.now (D.view disk.old) → HasBodies bodies log.now (D.view disk.new) }
    ensures on { IsTrue D.tells → IsOn (D.view disk.new) log.now }
    ensures disk { result ≡ Err StoreFault.Disk
        → Rose (D.view disk.old).faults (D.view disk.new).faults }
    ensures steady { OnOk result ((D.view disk.new).faults ≡ (D.view disk.old).faults) }
    ensures no_fault { OnErr result (result ≢ Err StoreFault.Disk
        → (D.view disk.new).faults ≡ (D.view disk.old).faults) }
    ensures few { (f : TheFault) → result ≡ Err f → IsOfReading f }
{
    let mut place = log.first();
    'bodies: while place < upto {
        let (rows, next) = body_at(alloc, log, disk, place, room)?;
        fold_rows(core, place, rows)?;
        place = next;
    }
    Ok(())
}

/// The state behind the rows of a log up to the one at a place, with that one.
pub(crate) fn fold_upto<D: Disk>(
    alloc: Global,
    log: &Log,
    disk: &mut D,
    last: Place,
) -> Result<Core, StoreFault>
    requires on { IsTrue D.tells → IsOn (D.view disk.old) log.now }
    ensures known { IfOk result (λ core. IsOfSome core) }
    ensures core { IfOk result (λ core. IsTrue D.tells
        → (before : List (List TheRow)) (there : List TheRow) (after : List (List TheRow))
        → AllBodies (before ++ there ∷ after)
        → HasBodies (bytes_of (before ++ there ∷ after)) log.now (D.view disk.old)
        → last.place ≡ length (made log.now.format (bytes_of before))
        → Holds core (joined before ++ take (last.index + 1) there)) }
    ensures no_bad_log { (p : ℕ) → result ≡ Err (StoreFault.BadLog p) → IsTrue D.tells
        → (before : List (List TheRow)) (there : List TheRow) (after : List (List TheRow))
        → AllBodies (before ++ there ∷ after)
        → HasBodies (bytes_of (before ++ there ∷ after)) log.now (D.view disk.old)
        → last.place ≡ length (made log.now.format (bytes_of before))
        → IsJournal (joined (before ++ there ∷ after)) → ⊥ }
    ensures goes { Goes Same (D.view disk.old) (D.view disk.new) }
    ensures holds { IsTrue D.tells → (bodies : List (List ℕ))
        → HasBodies bodies log.now (D.view disk.old) → HasBodies bodies log.now (D.view disk.new) }
    ensures on { IsTrue D.tells → IsOn (D.view disk.new) log.now }
    ensures disk { result ≡ Err StoreFault.Disk
        → Rose (D.view disk.old).faults (D.view disk.new).faults }
    ensures steady { OnOk result ((D.view disk.new).faults ≡ (D.view disk.old).faults) }
    ensures no_fault { OnErr result (result ≢ Err StoreFault.Disk
        → (D.view disk.new).faults ≡ (D.view disk.old).faults) }
    ensures few { (f : TheFault) → result ≡ Err f → IsOfReading f }
{
    let mut room = Vec::new(alloc);
    let mut core = Core::new(alloc);
    fold_before(alloc, log, disk, last.place, &mut room, &mut core)?;
    let (mut rows, _) = body_at(alloc, log, disk, last.place, &mut room)?;
    rows.truncate(usize::from(last.index) + 1);
    fold_rows(&mut core, last.place, rows)?;
    Ok(core)
}
