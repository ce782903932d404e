//! Giving the messages that follow a cursor one by one.

ghost use Rattle.std.specs.Prelude.{◌≡◌, ◌≢◌, ◌≤◌, ℕ, Some, IsTrue, IfOk, OnOk, OnErr, Err};
ghost use Rattle.at_cid.specs.Counts.{Rose};
ghost use Rattle.event_window.specs.Held.{Held, damage_after};
ghost use Rattle.event_window.specs.declared.fault.EventsFault.{EventsFault};
ghost use Rattle.relay_io.specs.Messages.{Gives};
ghost use Rattle.backfill.specs.StreamPlaces.{left_of};
ghost use Rattle.backfill.specs.Served.{messages_of, rising_above};
ghost use Rattle.backfill.specs.declared.stream_place.StreamPlace.{StreamPlace as ThePlace};

use crate::following::next_above;
use crate::notices::{future_cursor, outdated_cursor};
use crate::standing::{Standing, standing_of};
use crate::stream_place::StreamPlace;
use at_cid::{Memory, Octets};
use event_window::{Events, EventsFault};

// Puts bytes in the room, in place of what was there.
fn put(room: &mut Octets, bytes: &[u8]) -> Result<(), Memory>
    ensures { OnOk result (room.new ≡ bytes.now) }
{
    room.clear();
    room.extend(bytes)
}

// The next event above a number.
fn give_above<E: Events>(
    events: &mut E,
    seq: u64,
    place: &mut StreamPlace,
    room: &mut Octets,
) -> Result<bool, EventsFault>
    requires known { IsTrue E.tells → (held : Held) × E.holds events.old held }
    ensures given { IfOk result (λ more. IsTrue E.tells → (held : Held) → E.holds events.old held
        → Gives more room.new (messages_of (rising_above seq held.shown))
        (left_of held place.new)) }
    ensures kept { OnErr result (place.new ≡ place.old) }
    ensures known { IsTrue E.tells → (held : Held) × E.holds events.new held }
    ensures same { IsTrue E.tells → (held : Held) → E.holds events.old held
        → E.holds events.new held }
    ensures later { E.later events.old events.new }
    ensures disk { result ≡ Err EventsFault.Disk
        → Rose (E.faults events.old) (E.faults events.new) }
    ensures counts { E.faults events.old ≤ E.faults events.new }
    ensures steady { result ≢ Err EventsFault.Disk → E.faults events.new ≡ E.faults events.old }
    ensures no_bad_log { (at : ℕ) → result ≡ Err (EventsFault.BadLog at) → IsTrue E.tells
        → (held : Held) → E.holds events.old held → ⊥ }
    ensures damaged { E.damage events.new ≡ damage_after (E.damage events.old) result }
{
    match next_above(events, seq, room)? {
        Some(number) => {
            *place = StreamPlace::Behind(number);
            Ok(true)
        }
        None => {
            *place = StreamPlace::End;
            Ok(false)
        }
    }
}

// The first message behind a cursor: what is said of it, or the first event.
fn give_first<E: Events>(
    events: &mut E,
    cursor: u64,
    place: &mut StreamPlace,
    room: &mut Octets,
) -> Result<bool, EventsFault>
    requires known { IsTrue E.tells → (held : Held) × E.holds events.old held }
    ensures given { IfOk result (λ more. IsTrue E.tells → (held : Held) → E.holds events.old held
        → Gives more room.new (left_of held (ThePlace.Start cursor)) (left_of held place.new)) }
    ensures kept { OnErr result (place.new ≡ place.old) }
    ensures known { IsTrue E.tells → (held : Held) × E.holds events.new held }
    ensures same { IsTrue E.tells → (held : Held) → E.holds events.old held
        → E.holds events.new held }
    ensures later { E.later events.old events.new }
    ensures disk { result ≡ Err EventsFault.Disk
        → Rose (E.faults events.old) (E.faults events.new) }
    ensures counts { E.faults events.old ≤ E.faults events.new }
    ensures steady { result ≢ Err EventsFault.Disk → E.faults events.new ≡ E.faults events.old }
    ensures no_bad_log { (at : ℕ) → result ≡ Err (EventsFault.BadLog at) → IsTrue E.tells
        → (held : Held) → E.holds events.old held → ⊥ }
    ensures damaged { E.damage events.new ≡ damage_after (E.damage events.old) result }
{
    match standing_of(events, cursor) {
        Standing::Future => {
            put(room, future_cursor())?;
            *place = StreamPlace::End;
            Ok(true)
        }
        Standing::Outdated => {
            put(room, outdated_cursor())?;
            *place = StreamPlace::Behind(cursor);
            Ok(true)
        }
        Standing::Current => give_above(events, cursor, place, room),
    }
}

/// Puts the next of the messages that follow a cursor in the room, in place of what was there, and is false where there are no more.
/// After a false or a fault nothing is said of the room.
pub fn give_next<E: Events>(
    events: &mut E,
    place: &mut StreamPlace,
    room: &mut Octets,
) -> Result<bool, EventsFault>
    requires known { IsTrue E.tells → (held : Held) × E.holds events.old held }
    ensures given { IfOk result (λ more. IsTrue E.tells → (held : Held) → E.holds events.old held
        → Gives more room.new (left_of held place.old) (left_of held place.new)) }
    ensures kept { OnErr result (place.new ≡ place.old) }
    ensures known { IsTrue E.tells → (held : Held) × E.holds events.new held }
    ensures same { IsTrue E.tells → (held : Held) → E.holds events.old held
        → E.holds events.new held }
    ensures later { E.later events.old events.new }
    ensures disk { result ≡ Err EventsFault.Disk
        → Rose (E.faults events.old) (E.faults events.new) }
    ensures counts { E.faults events.old ≤ E.faults events.new }
    ensures steady { result ≢ Err EventsFault.Disk → E.faults events.new ≡ E.faults events.old }
    ensures no_bad_log { (at : ℕ) → result ≡ Err (EventsFault.BadLog at) → IsTrue E.tells
        → (held : Held) → E.holds events.old held → ⊥ }
    ensures damaged { E.damage events.new ≡ damage_after (E.damage events.old) result }
{
    match *place {
        StreamPlace::Start(cursor) => give_first(events, cursor, place, room),
        StreamPlace::Behind(seq) => give_above(events, seq, place, room),
        StreamPlace::End => Ok(false),
    }
}
