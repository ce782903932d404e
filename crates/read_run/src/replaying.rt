//! What a guest would be sent, as bytes.

ghost use Rattle.std.specs.Prelude.{◌≡◌, ◌≤◌, ◌⊎◌, List, Some, IsTrue, max};
ghost use Rattle.at_cid.specs.Counts.{Rose, CountedBut};
ghost use Rattle.event_window.specs.Held.{Held};
ghost use Rattle.relay_row.specs.declared.row.Row.{Row as TheRow};
ghost use Rattle.relay_store.specs.Shown.{held_by};
ghost use Rattle.relay_store.specs.Store.{IsKept, Keeps, seen_in};
ghost use Rattle.backfill.specs.Served.{served};
ghost use Rattle.backfill.specs.Writing.{AddsUpto};
ghost use Rattle.run_base.specs.Ends.{Writes};
ghost use Rattle.read_run.specs.Ends.{IsOfDisks, MayEndReading};
ghost use Rattle.read_run.specs.Events.{WasRead, WereRead};
ghost use Rattle.read_run.specs.Replayed.{IsReplay};

use crate::status::status_of_replay;
use event_window::Events;
use relay_disk::Disk;
use relay_io::Sink;
use relay_store::Store;
use run_base::Status;
use std::alloc::Global;
use store_read::events;

// Writes the messages of these events, each after its length.
fn replay_events<E: Events, O: Sink>(
    alloc: Global,
    events: &mut E,
    cursor: u64,
    out: &mut O,
) -> Status
    requires { IsTrue E.tells → (held : Held) × E.holds events.old held }
    ensures replayed { IsTrue E.tells → (held : Held) → E.holds events.old held
        → (r : IsReplay O.tells (Rose (O.faults out.old) (O.faults out.new)) held cursor
        (O.written out.old) (O.written out.new) result)
        × (IsTrue O.tells → Writes result r.lines r.last (O.written out.old) (O.written out.new)) }

    // Where reading ends it, each event that was given is written, if none above the cursor was
    // given before.
    ensures upto { IsOfDisks result → IsTrue E.tells → (held : Held) → E.holds events.old held
        → IsTrue O.tells → E.given_upto events.old ≤ cursor
        → AddsUpto (served held (Some cursor)) held.shown (max cursor (E.given_upto events.new))
        (O.written out.old) (O.written out.new) ⊎ Rose (O.faults out.old) (O.faults out.new) }
    ensures may { MayEndReading result }
    ensures read { WereRead E.tells E.holds E.faults E.damage events.old events.new result }
    ensures output { CountedBut (IsOfDisks result) (result ≡ Status.WriteFault)
        (O.faults out.old) (O.faults out.new) }
    ensures later { E.later events.old events.new }
{
    match backfill::replay(alloc, events, cursor, out) {
        Ok(_) => Status::Done,
        Err(fault) => status_of_replay(fault),
    }
}

/// Writes those of the events on the disk that the store is on.
pub(crate) fn replay_from<D: Disk, O: Sink>(
    alloc: Global,
    store: &Store,
    disk: &mut D,
    cursor: u64,
    out: &mut O,
) -> Status
    requires { IsTrue D.tells → IsKept (seen_in store.now) (D.view disk.old) }
    ensures replayed { IsTrue D.tells → (J : List TheRow)
        → Keeps J (seen_in store.now) (D.view disk.old)
        → (r : IsReplay O.tells (Rose (O.faults out.old) (O.faults out.new)) (held_by J) cursor
        (O.written out.old) (O.written out.new) result)
        × (IsTrue O.tells → Writes result r.lines r.last (O.written out.old) (O.written out.new)) }
    ensures may { MayEndReading result }
    ensures read { WasRead D.tells (D.view disk.old) (D.view disk.new) result }
    ensures output { CountedBut (IsOfDisks result) (result ≡ Status.WriteFault)
        (O.faults out.old) (O.faults out.new) }
{
    let mut events = events(store, alloc, disk);
    replay_events(alloc, &mut events, cursor, out)
}
