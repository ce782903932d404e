//! Finding events again, by their places.

ghost use Rattle.std.specs.Prelude.{◌≡◌, ◌≤◌, ◌<◌, ◌^◌, ◌++◌, ◌∷◌, [], ℕ, List, length, true, Err, IsTrue, IfOk, IfSome, OnOk, OnErr};
ghost use Rattle.at_cid.specs.Counts.{Rose};
ghost use Rattle.event_window.specs.Held.{damage_after};
ghost use Rattle.event_window.specs.declared.fault.EventsFault.{EventsFault};
ghost use Rattle.gate_log.specs.Image.{made};
ghost use Rattle.gate_log.specs.Log.{HoldsBodies as HasBodies, IsOn};
ghost use Rattle.row_codec.specs.Bodies.{IsBody, encoded_rows, rows_body, row_encoding};
ghost use Rattle.relay_row.specs.Folds.{events_in};
ghost use Rattle.relay_row.specs.Rules.{is_row};
ghost use Rattle.relay_row.specs.declared.row.Row.{Row as TheRow};
ghost use Rattle.relay_core.specs.Entries.{Holds};
ghost use Rattle.relay_store.specs.Events.{AllStand, IsFirst, StandsAt, message_of};
ghost use Rattle.store_read.specs.Events.{IsBufferOf, IsReadAs, IsReadOf, IsToldOf};
ghost use Rattle.store_read.specs.Rereading.{LeftAsRead};
ghost use Rattle.relay_store.specs.Journals.{AllBodies, bytes_of};
ghost use Rattle.relay_store.specs.Shown.{shown_of};

use crate::buffer::Buffer;
use crate::showing::is_shown;
use at_cid::Octets;
use event_window::{EventsFault, Place};
use gate_log::Log;
use relay_core::Core;
use relay_disk::Disk;

// Tells of the event of the row before which the buffer is, which is to have the number that was kept.
fn copy_shown(
    core: &Core,
    buffer: &mut Buffer,
    place: Place,
    room: &mut Octets,
) -> Result<bool, EventsFault>
    ensures told { IfOk result (λ shown. (J : List TheRow) (row : TheRow) (rest : List ℕ)
        → Holds core.now J → is_row row ≡ true
        → buffer.old.left ≡ row_encoding row ++ rest → IsToldOf J row shown room.new) }
    ensures kept { IfOk result (λ shown. IsReadAs buffer.old.left place.seq shown room.new) }
    ensures short { IfOk result (λ shown. shown ≡ true → length room.new < 2 ^ 32) }
    ensures bad_log { (p : ℕ) → result ≡ Err (EventsFault.BadLog p)
        → (row : TheRow) (more : List TheRow) → is_row row ≡ true
        → buffer.old.left ≡ row_encoding row ++ encoded_rows more
        → events_in row ≡ (place.seq, message_of (events_in row)) ∷ [] → ⊥ }
    ensures no_disk { result ≡ Err EventsFault.Disk → ⊥ }
    ensures same { buffer.new ≡ buffer.old }
{
    if !buffer.ends_row() {
        return Err(EventsFault::BadLog(place.place));
    }
    let Some(peeked) = buffer.peeked() else {
        return Err(EventsFault::BadLog(place.place));
    };
    if peeked.seq != place.seq {
        return Err(EventsFault::BadLog(place.place));
    }
    if !is_shown(core, &peeked) {
        return Ok(false);
    }
    room.clear();
    room.extend(peeked.message)?;
    Ok(true)
}

// Turns to the body of a place, unless the buffer is of it and the row there is still to come.
fn refill_body<D: Disk>(
    log: &Log,
    disk: &mut D,
    place: Place,
    buffer: &mut Buffer,
) -> Result<(), EventsFault>
    requires on { IsTrue D.tells → IsOn (D.view disk.old) log.now }
    ensures there { OnOk result ((buffer.new.place ≡ place.place)
        × (buffer.new.index ≤ place.index)) }
    ensures fits { IsTrue D.tells → (bodies : List (List TheRow)) → AllBodies bodies
        → HasBodies (bytes_of bodies) log.now (D.view disk.old)
        → IsBufferOf log.now.format bodies buffer.old
        → IsBufferOf log.now.format bodies buffer.new }
    ensures no_bad_log { (p : ℕ) → result ≡ Err (EventsFault.BadLog p) → IsTrue D.tells
        → (before : List (List TheRow)) (there : List TheRow) (after : List (List TheRow))
        → IsBody there (rows_body there)
        → HasBodies (bytes_of (before ++ there ∷ after)) log.now (D.view disk.old)
        → place.place ≡ length (made log.now.format (bytes_of before)) → ⊥ }
    ensures as_read { LeftAsRead D.tells log.now (D.view disk.old) (D.view disk.new) }
    ensures steady { OnOk result ((D.view disk.new).faults ≡ (D.view disk.old).faults) }
    ensures no_fault { OnErr result ((result ≡ Err EventsFault.Disk → ⊥)
        → (D.view disk.new).faults ≡ (D.view disk.old).faults) }
    ensures disk { result ≡ Err EventsFault.Disk
        → Rose (D.view disk.old).faults (D.view disk.new).faults }
{
    if buffer.is_before(place) {
        return Ok(());
    }
    buffer.turn(log, disk, place.place)
}

// Turns to the row at a place.
fn refill_to<D: Disk>(
    log: &Log,
    disk: &mut D,
    place: Place,
    buffer: &mut Buffer,
) -> Result<(), EventsFault>
    requires on { IsTrue D.tells → IsOn (D.view disk.old) log.now }
    ensures there { OnOk result ((buffer.new.place ≡ place.place)
        × (buffer.new.index ≡ place.index)) }
    ensures fits { IsTrue D.tells → (bodies : List (List TheRow)) → AllBodies bodies
        → HasBodies (bytes_of bodies) log.now (D.view disk.old)
        → IsBufferOf log.now.format bodies buffer.old
        → IsBufferOf log.now.format bodies buffer.new }
    ensures no_bad_log { (p : ℕ) → result ≡ Err (EventsFault.BadLog p) → IsTrue D.tells
        → (bodies : List (List TheRow)) (row : TheRow)
        → AllBodies bodies → HasBodies (bytes_of bodies) log.now (D.view disk.old)
        → IsBufferOf log.now.format bodies buffer.old
        → StandsAt log.now.format bodies place row → ⊥ }
    ensures as_read { LeftAsRead D.tells log.now (D.view disk.old) (D.view disk.new) }
    ensures steady { OnOk result ((D.view disk.new).faults ≡ (D.view disk.old).faults) }
    ensures no_fault { OnErr result ((result ≡ Err EventsFault.Disk → ⊥)
        → (D.view disk.new).faults ≡ (D.view disk.old).faults) }
    ensures disk { result ≡ Err EventsFault.Disk
        → Rose (D.view disk.old).faults (D.view disk.new).faults }
{
    refill_body(log, disk, place, buffer)?;
    if !buffer.go_on(place.index) {
        return Err(EventsFault::BadLog(place.place));
    }
    Ok(())
}

// Tells of the event of the row at a place: whether it is shown, and where it is, its message goes into the room.
fn copy_shown_at<D: Disk>(
    log: &Log,
    core: &Core,
    disk: &mut D,
    place: Place,
    buffer: &mut Buffer,
    room: &mut Octets,
) -> Result<bool, EventsFault>
    requires on { IsTrue D.tells → IsOn (D.view disk.old) log.now }
    ensures told { IfOk result (λ shown. IsTrue D.tells
        → (bodies : List (List TheRow)) (J : List TheRow) (row : TheRow) → AllBodies bodies
        → HasBodies (bytes_of bodies) log.now (D.view disk.old) → Holds core.now J
        → IsBufferOf log.now.format bodies buffer.old
        → StandsAt log.now.format bodies place row → IsToldOf J row shown room.new) }
    ensures kept { IfOk result (λ shown. IsReadAs buffer.new.left place.seq shown room.new) }
    ensures short { IfOk result (λ shown. shown ≡ true → length room.new < 2 ^ 32) }
    ensures fits { IsTrue D.tells → (bodies : List (List TheRow)) → AllBodies bodies
        → HasBodies (bytes_of bodies) log.now (D.view disk.old)
        → IsBufferOf log.now.format bodies buffer.old
        → IsBufferOf log.now.format bodies buffer.new }
    ensures no_bad_log { (p : ℕ) → result ≡ Err (EventsFault.BadLog p) → IsTrue D.tells
        → (bodies : List (List TheRow)) (row : TheRow)
        → AllBodies bodies → HasBodies (bytes_of bodies) log.now (D.view disk.old)
        → IsBufferOf log.now.format bodies buffer.old
        → StandsAt log.now.format bodies place row → ⊥ }
    ensures as_read { LeftAsRead D.tells log.now (D.view disk.old) (D.view disk.new) }
    ensures steady { OnOk result ((D.view disk.new).faults ≡ (D.view disk.old).faults) }
    ensures no_fault { OnErr result ((result ≡ Err EventsFault.Disk → ⊥)
        → (D.view disk.new).faults ≡ (D.view disk.old).faults) }
    ensures disk { result ≡ Err EventsFault.Disk
        → Rose (D.view disk.old).faults (D.view disk.new).faults }
{
    refill_to(log, disk, place, buffer)?;
    copy_shown(core, buffer, place, room)
}

// The place where damage was found last, after an answer.
fn damage_after(before: Option<u64>, answer: &Result<bool, EventsFault>) -> Option<u64>
    ensures { result ≡ damage_after before answer.now }
{
    match answer {
        Err(EventsFault::BadLog(place)) => Some(*place),
        _ => before,
    }
}

// Tells of the event of the row at a place, and where damage was found last.
fn tell_shown_at<D: Disk>(
    log: &Log,
    core: &Core,
    disk: &mut D,
    place: Place,
    buffer: &mut Buffer,
    damage: &mut Option<u64>,
    room: &mut Octets,
) -> Result<bool, EventsFault>
    requires on { IsTrue D.tells → IsOn (D.view disk.old) log.now }
    ensures told { IfOk result (λ shown. IsTrue D.tells
        → (bodies : List (List TheRow)) (J : List TheRow) (row : TheRow) → AllBodies bodies
        → HasBodies (bytes_of bodies) log.now (D.view disk.old) → Holds core.now J
        → IsBufferOf log.now.format bodies buffer.old
        → StandsAt log.now.format bodies place row → IsToldOf J row shown room.new) }
    ensures kept { IfOk result (λ shown. IsReadAs buffer.new.left place.seq shown room.new) }
    ensures short { IfOk result (λ shown. shown ≡ true → length room.new < 2 ^ 32) }
    ensures fits { IsTrue D.tells → (bodies : List (List TheRow)) → AllBodies bodies
        → HasBodies (bytes_of bodies) log.now (D.view disk.old)
        → IsBufferOf log.now.format bodies buffer.old
        → IsBufferOf log.now.format bodies buffer.new }
    ensures no_bad_log { (p : ℕ) → result ≡ Err (EventsFault.BadLog p) → IsTrue D.tells
        → (bodies : List (List TheRow)) (row : TheRow)
        → AllBodies bodies → HasBodies (bytes_of bodies) log.now (D.view disk.old)
        → IsBufferOf log.now.format bodies buffer.old
        → StandsAt log.now.format bodies place row → ⊥ }
    ensures as_read { LeftAsRead D.tells log.now (D.view disk.old) (D.view disk.new) }
    ensures steady { OnOk result ((D.view disk.new).faults ≡ (D.view disk.old).faults) }
    ensures no_fault { OnErr result ((result ≡ Err EventsFault.Disk → ⊥)
        → (D.view disk.new).faults ≡ (D.view disk.old).faults) }
    ensures disk { result ≡ Err EventsFault.Disk
        → Rose (D.view disk.old).faults (D.view disk.new).faults }
    ensures damaged { damage.new ≡ damage_after damage.old result }
{
    let told = copy_shown_at(log, core, disk, place, buffer, room);
    *damage = damage_after(*damage, &told);
    told
}

/// The first event that is shown of those at these places: its number, and its message, which goes into the room. Where damage is
/// found, that is answered and kept.
pub(crate) fn find_shown<D: Disk>(
    log: &Log,
    core: &Core,
    disk: &mut D,
    places: &[Place],
    buffer: &mut Buffer,
    damage: &mut Option<u64>,
    room: &mut Octets,
) -> Result<Option<u64>, EventsFault>
    requires on { IsTrue D.tells → IsOn (D.view disk.old) log.now }
    ensures first { IfOk result (λ found. IsTrue D.tells
        → (bodies : List (List TheRow)) (J rows : List TheRow) → AllBodies bodies
        → HasBodies (bytes_of bodies) log.now (D.view disk.old) → Holds core.now J
        → IsBufferOf log.now.format bodies buffer.old
        → AllStand log.now.format bodies places.now rows
        → IsFirst (shown_of J rows) found room.new) }
    ensures kept { IfOk result (λ found.
        IfSome found (λ n. IsReadOf places.now buffer.new.left n room.new)) }
    ensures short { IfOk result (λ found. IfSome found (λ n. length room.new < 2 ^ 32)) }
    ensures fits { IsTrue D.tells → (bodies : List (List TheRow)) → AllBodies bodies
        → HasBodies (bytes_of bodies) log.now (D.view disk.old)
        → IsBufferOf log.now.format bodies buffer.old
        → IsBufferOf log.now.format bodies buffer.new }
    ensures no_bad_log { (p : ℕ) → result ≡ Err (EventsFault.BadLog p) → IsTrue D.tells
        → (bodies : List (List TheRow)) (rows : List TheRow)
        → AllBodies bodies → HasBodies (bytes_of bodies) log.now (D.view disk.old)
        → IsBufferOf log.now.format bodies buffer.old
        → AllStand log.now.format bodies places.now rows → ⊥ }
    ensures as_read { LeftAsRead D.tells log.now (D.view disk.old) (D.view disk.new) }
    ensures steady { OnOk result ((D.view disk.new).faults ≡ (D.view disk.old).faults) }
    ensures no_fault { OnErr result ((result ≡ Err EventsFault.Disk → ⊥)
        → (D.view disk.new).faults ≡ (D.view disk.old).faults) }
    ensures disk { result ≡ Err EventsFault.Disk
        → Rose (D.view disk.old).faults (D.view disk.new).faults }
    ensures damaged { damage.new ≡ damage_after damage.old result }
{
    let mut left = places;
    'places: loop {
        let [place, others @ ..] = left else {
            return Ok(None);
        };
        if tell_shown_at(log, core, disk, *place, buffer, damage, room)? {
            return Ok(Some(place.seq));
        }
        left = others;
    }
}
