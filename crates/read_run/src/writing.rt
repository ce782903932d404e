//! The lines of operations, one event after another.

ghost use Rattle.std.specs.Prelude.{◌≡◌, ◌≤◌, ◌<◌, [], List, Err, IsTrue, IfOk, IfErr, IfSome, OnErr, max, option_map};
ghost use Rattle.at_event.specs.Frames.{frame_of};
ghost use Rattle.event_window.specs.Held.{Held, IsNext};
ghost use Rattle.relay_row.specs.declared.row.Row.{Row as TheRow};
ghost use Rattle.relay_store.specs.Shown.{held_by};
ghost use Rattle.relay_store.specs.Store.{IsKept, Keeps, seen_in};
ghost use Rattle.json_lines.specs.Lines.{lines_read};
ghost use Rattle.at_cid.specs.Counts.{Counted};
ghost use Rattle.run_base.specs.Ends.{IsUnwritten, Writes, status_in};
ghost use Rattle.read_run.specs.Ends.{IsOfDisks, IsUnread, MayEndReading};
ghost use Rattle.read_run.specs.Events.{WasRead, WereRead};
ghost use Rattle.read_run.specs.Lines.{AddsLines, AreLines};

use crate::status::status_of_events;
use at_cid::Octets;
use event_window::Events;
use json_lines::message_lines;
use relay_disk::Disk;
use relay_io::{Sink, write_all};
use relay_store::Store;
use run_base::Status;
use std::alloc::Global;
use store_read::events;

// The next event above a number, as `next_after` has it. What doesn't tell its events may answer
// one that isn't above, which is none.
fn next_above<E: Events>(events: &mut E, seq: u64, room: &mut Octets) -> Result<Option<u64>, Status>
    requires { IsTrue E.tells → (held : Held) × E.holds events.old held }
    ensures above { IfOk result (λ found. IfSome found (λ n. seq < n)) }
    ensures next { IfOk result (λ found. IsTrue E.tells → (held : Held)
        → E.holds events.old held → IsNext seq held.shown found room.new) }
    ensures few { IfErr result IsUnread }
    ensures read { WereRead E.tells E.holds E.faults E.damage events.old events.new
        (status_in result) }
    ensures given { IfOk result (λ found. IfSome found (λ n. E.given_upto events.new ≡ n)) }
    ensures none_given { OnErr result (E.given_upto events.new ≡ E.given_upto events.old) }
    ensures later { E.later events.old events.new }
{
    match events.next_after(seq, room) {
        Ok(Some(number)) if seq < number => Ok(Some(number)),
        Ok(_) => Ok(None),
        Err(fault) => Err(status_of_events(fault)),
    }
}

// Writes the lines of a message.
fn write_message<O: Sink>(
    alloc: Global,
    message: &[u8],
    collection: Option<&str>,
    out: &mut O,
) -> Result<(), Status>
    ensures written { IsTrue O.tells → Writes (status_in result) []
        (lines_read (option_map (λ text. text.now) collection.entry) (frame_of message.now))
        (O.written out.old) (O.written out.new) }
    ensures few { IfErr result IsUnwritten }
    ensures unwritten { result ≡ Err Status.Memory → out.new ≡ out.old }
    ensures counts { Counted (result ≡ Err Status.WriteFault)
        (O.faults out.old) (O.faults out.new) }
{
    let mut lines = Octets::new(alloc);
    match message_lines(alloc, message, collection, &mut lines) {
        Ok(()) => {}
        Err(_) => return Err(Status::Memory),
    }
    match write_all(out, lines.as_slice()) {
        Ok(()) => Ok(()),
        Err(_) => Err(Status::WriteFault),
    }
}

// Writes a line for each operation of each shown commit with a number above `cursor` whose record
// is in the collection, or in any where none is named, in the order of the events.
//
// A line is that of `json_lines::lines`. The lines of one event are written at once; one room holds
// each message in turn.
fn write_lines<E: Events, O: Sink>(
    alloc: Global,
    events: &mut E,
    cursor: u64,
    collection: Option<&str>,
    out: &mut O,
) -> Status
    requires { IsTrue E.tells → (held : Held) × E.holds events.old held }
    ensures lined { IsTrue E.tells → (held : Held) → E.holds events.old held
        → (l : AreLines O.tells held (option_map (λ text. text.now) collection.entry) cursor
        (O.written out.old) (O.written out.new) result)
        × (IsTrue O.tells → Writes result l.lines l.last (O.written out.old) (O.written out.new)) }

    // Where reading ends it, the lines of each event that was given are written, if none above the
    // cursor was given before.
    ensures upto { IsOfDisks result → IsTrue E.tells → (held : Held) → E.holds events.old held
        → IsTrue O.tells → E.given_upto events.old ≤ cursor
        → AddsLines (option_map (λ text. text.now) collection.entry) held.shown cursor
        (max cursor (E.given_upto events.new)) (O.written out.old) (O.written out.new) }
    ensures may { MayEndReading result }
    ensures read { WereRead E.tells E.holds E.faults E.damage events.old events.new result }
    ensures output { Counted (result ≡ Status.WriteFault) (O.faults out.old) (O.faults out.new) }
    ensures later { E.later events.old events.new }
{
    let mut room = Octets::new(alloc);
    let mut last = cursor;
    'events: loop {
        let number = match next_above(events, last, &mut room) {
            Ok(Some(number)) => number,
            Ok(None) => return Status::Done,
            Err(status) => return status,
        };
        match write_message(alloc, room.as_slice(), collection, out) {
            Ok(()) => {}
            Err(status) => return status,
        }
        last = number;
    }
}

/// Writes those of the events on the disk that the store is on.
pub(crate) fn lines_from<D: Disk, O: Sink>(
    alloc: Global,
    store: &Store,
    disk: &mut D,
    cursor: u64,
    collection: Option<&str>,
    out: &mut O,
) -> Status
    requires { IsTrue D.tells → IsKept (seen_in store.now) (D.view disk.old) }
    ensures lined { IsTrue D.tells → (J : List TheRow)
        → Keeps J (seen_in store.now) (D.view disk.old)
        → (l : AreLines O.tells (held_by J) (option_map (λ text. text.now) collection.entry) cursor
        (O.written out.old) (O.written out.new) result)
        × (IsTrue O.tells → Writes result l.lines l.last (O.written out.old) (O.written out.new)) }
    ensures may { MayEndReading result }
    ensures read { WasRead D.tells (D.view disk.old) (D.view disk.new) result }
    ensures output { Counted (result ≡ Status.WriteFault) (O.faults out.old) (O.faults out.new) }
{
    let mut events = events(store, alloc, disk);
    write_lines(alloc, &mut events, cursor, collection, out)
}
