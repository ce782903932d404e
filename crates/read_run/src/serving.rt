//! Guests who are served, one after another.

ghost use Rattle.std.specs.Prelude.{◌≡◌, ◌<◌, ◌^◌, List, IsTrue};
ghost use Rattle.event_window.specs.Held.{Held};
ghost use Rattle.relay_row.specs.declared.row.Row.{Row as TheRow};
ghost use Rattle.relay_store.specs.Shown.{held_by};
ghost use Rattle.relay_store.specs.Store.{IsKept, Keeps, seen_in};
ghost use Rattle.at_cid.specs.Counts.{Counted};
ghost use Rattle.run_base.specs.Ends.{Writes};
ghost use Rattle.read_run.specs.AtDoor.{at_door};
ghost use Rattle.read_run.specs.Ends.{CountedWithin, MayEndServing};
ghost use Rattle.read_run.specs.Events.{WasRead, WereRead};
ghost use Rattle.read_run.specs.Guests.{GuestsServed, session_lines, sessions_end};

use crate::accepting::accept;
use crate::session::{end_sessions, write_session};
use event_window::Events;
use relay_disk::Disk;
use relay_io::{Door, Sink};
use relay_store::Store;
use run_base::Status;
use std::alloc::Global;
use store_read::events;

// Serves at most `count` guests from these events, one after another, and writes a line for each,
// and the last line.
fn serve_guests<E: Events, G: Door, O: Sink>(
    alloc: Global,
    count: u64,
    events: &mut E,
    door: &mut G,
    out: &mut O,
) -> Status
    requires { IsTrue E.tells → (held : Held) × E.holds events.old held }
    ensures served { IsTrue E.tells → (held : Held) → E.holds events.old held
        → (g : GuestsServed G.tells count held
        (at_door (G.guests door.old) (G.turns door.old) (G.session_faults door.old))
        (at_door (G.guests door.new) (G.turns door.new) (G.session_faults door.new)) result)
        × (IsTrue O.tells → Writes result (session_lines g) (sessions_end g)
        (O.written out.old) (O.written out.new)) }
    ensures may { MayEndServing result }
    ensures read { WereRead E.tells E.holds E.faults E.damage events.old events.new result }
    ensures door { CountedWithin (result ≡ Status.Door)
        (G.faults door.old) (G.session_faults door.old)
        (G.faults door.new) (G.session_faults door.new) }
    ensures output { Counted (result ≡ Status.WriteFault) (O.faults out.old) (O.faults out.new) }
    ensures later { E.later events.old events.new }
{
    'guests: for served in 0..count {
        let session = match accept(alloc, events, door) {
            Ok(Some(session)) => session,
            Ok(None) => return end_sessions(alloc, served, out),
            Err(status) => return status,
        };
        match write_session(alloc, served + 1, session, out) {
            Ok(()) => {}
            Err(status) => return status,
        }
    }
    end_sessions(alloc, count, out)
}

/// Serves them the events on the disk that the store is on.
pub(crate) fn serve_from<D: Disk, G: Door, O: Sink>(
    alloc: Global,
    count: u64,
    store: &Store,
    disk: &mut D,
    door: &mut G,
    out: &mut O,
) -> Status
    requires { IsTrue D.tells → IsKept (seen_in store.now) (D.view disk.old) }
    ensures served { IsTrue D.tells → (J : List TheRow)
        → Keeps J (seen_in store.now) (D.view disk.old)
        → (g : GuestsServed G.tells count (held_by J)
        (at_door (G.guests door.old) (G.turns door.old) (G.session_faults door.old))
        (at_door (G.guests door.new) (G.turns door.new) (G.session_faults door.new)) result)
        × (IsTrue O.tells → Writes result (session_lines g) (sessions_end g)
        (O.written out.old) (O.written out.new)) }
    ensures may { MayEndServing result }
    ensures read { WasRead D.tells (D.view disk.old) (D.view disk.new) result }
    ensures door { CountedWithin (result ≡ Status.Door)
        (G.faults door.old) (G.session_faults door.old)
        (G.faults door.new) (G.session_faults door.new) }
    ensures output { Counted (result ≡ Status.WriteFault) (O.faults out.old) (O.faults out.new) }
{
    let mut events = events(store, alloc, disk);
    serve_guests(alloc, count, &mut events, door, out)
}
