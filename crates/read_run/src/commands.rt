//! The commands, over the parts that they are handed as one value.

ghost use Rattle.std.specs.Prelude.{◌≡◌, ◌≢◌, ◌≤◌, List, IsTrue, option_map};
ghost use Rattle.gate_log.specs.declared.limits.TheConstants.{LAST_END};
ghost use Rattle.relay_row.specs.declared.row.Row.{Row as TheRow};
ghost use Rattle.run_base.specs.Ends.{AreOnlyRead, HoldsJournal, HoldsNone};
ghost use Rattle.run_base.specs.Place.{Part, the_clock, the_judges, the_output, the_repos};
ghost use Rattle.run_base.specs.Reading.{AtMostLogMade};
ghost use Rattle.read_run.specs.AtDoor.{at_door, with_door};
ghost use Rattle.read_run.specs.AtWire.{at_wire, with_wire};
ghost use Rattle.read_run.specs.Ends.{IsOfDisks, MayEndQuerying, MayEndReading, MayEndServing, ReadEnded};
ghost use Rattle.read_run.specs.Guests.{ServedAt};
ghost use Rattle.read_run.specs.Lines.{LinesWritten};
ghost use Rattle.read_run.specs.Queried.{AnsweredBy};
ghost use Rattle.read_run.specs.Replayed.{Replayed};

use crate::answering::answer_all;
use crate::picking::picked;
use crate::replaying::replay_from;
use crate::serving::serve_from;
use crate::writing::lines_from;
use at_authority::Judges;
use relay_disk::Disk;
use relay_io::{Clock, Door, Repos, Sink, Wire};
use run_base::{Outside, Seen, Status};
use std::alloc::Global;

/// The commands that only read the journal of two disks. Each opens the store, reads, and writes or
/// sends what it read. No row of the log is to end past `most`, which is in bytes.
pub trait Reads: Seen {
    /// Writes each message that [`Reads::serve`] sends to a guest with this cursor, after its
    /// length in four bytes, the highest first.
    fn replay(&mut self, alloc: Global, most: u64, cursor: u64) -> Status
        requires { most ≤ LAST_END }
        ensures ran { (J : List TheRow) → HoldsJournal Self.tells J (Self.place self.old)
            → Replayed Self.tells most J cursor (Self.place self.old) (Self.place self.new) result }
        ensures may { MayEndReading result }
        // Where reading ends it, the output may fail too.
        ensures ended { ReadEnded (IsOfDisks result) Self.tells (Self.place self.old)
            (Self.place self.new) result }
        // Disks that hold no journal are only read, and nothing else is done.
        ensures no_journal { HoldsNone Self.tells (Self.place self.old)
            → AreOnlyRead result (Self.place self.old) (Self.place self.new)
            × ((part : Part) → Self.stays part self.old self.new) }
        // Disks that hold one are only read too, except where a log is made.
        ensures only_read { let old = Self.place self.old in let new = Self.place self.new in
            IsTrue (Self.tells).disk → result ≢ Status.Disk
            → AtMostLogMade old.one old.two new.one new.two }
        ensures unasked { Self.stays the_judges self.old self.new
            × Self.stays the_repos self.old self.new × Self.stays the_clock self.old self.new }
        ensures later { Self.later self.old self.new };

    /// Serves at most `count` guests, one after another in the order of the door, each with the
    /// events after the cursor that the target asks for, and writes a line for each session that
    /// ended, and the last line. A session that fails is no fault: the next guest is served.
    fn serve<G: Door>(&mut self, alloc: Global, most: u64, count: u64, door: &mut G) -> Status
        requires { most ≤ LAST_END }
        ensures ran { (J : List TheRow) → HoldsJournal Self.tells J (Self.place self.old)
            → ServedAt Self.tells G.tells most count J
            (at_door (G.guests door.old) (G.turns door.old) (G.session_faults door.old))
            (at_door (G.guests door.new) (G.turns door.new) (G.session_faults door.new))
            (Self.place self.old) (Self.place self.new) result }
        ensures may { MayEndServing result }
        ensures ended { ReadEnded ⊥ Self.tells (with_door (G.faults door.old) (Self.place self.old))
            (with_door (G.faults door.new) (Self.place self.new)) result }
        // Disks that hold no journal are only read, and nothing else is done.
        ensures no_journal { HoldsNone Self.tells (Self.place self.old)
            → AreOnlyRead result (Self.place self.old) (Self.place self.new)
            × (door.new ≡ door.old) × ((part : Part) → Self.stays part self.old self.new) }
        // Disks that hold one are only read too, except where a log is made.
        ensures only_read { let old = Self.place self.old in let new = Self.place self.new in
            IsTrue (Self.tells).disk → result ≢ Status.Disk
            → AtMostLogMade old.one old.two new.one new.two }
        ensures unasked { Self.stays the_judges self.old self.new
            × Self.stays the_repos self.old self.new × Self.stays the_clock self.old self.new }
        ensures later { Self.later self.old self.new }
        ensures door_counts { (G.faults door.old ≤ G.faults door.new)
            × (G.session_faults door.old ≤ G.session_faults door.new) };

    /// Answers at most `count` requests of the wire by the journal, one after another in the order
    /// of the wire, and writes a line for each request and the last line. A reply that can't be
    /// sent is no fault: the next request is answered.
    fn query<W: Wire>(&mut self, alloc: Global, most: u64, count: u64, wire: &mut W) -> Status
        requires { most ≤ LAST_END }
        ensures ran { (J : List TheRow) → HoldsJournal Self.tells J (Self.place self.old)
            → AnsweredBy Self.tells W.tells most count J
            (at_wire (W.requests wire.old) (W.exchanges wire.old) (W.send_faults wire.old))
            (at_wire (W.requests wire.new) (W.exchanges wire.new) (W.send_faults wire.new))
            (Self.place self.old) (Self.place self.new) result }
        ensures may { MayEndQuerying result }
        ensures ended { ReadEnded ⊥ Self.tells (with_wire (W.faults wire.old) (Self.place self.old))
            (with_wire (W.faults wire.new) (Self.place self.new)) result }
        // Where the disks ended it, no request came.
        ensures quiet { IsOfDisks result
            → (wire.new ≡ wire.old) × Self.stays the_output self.old self.new }
        // Disks that hold no journal are only read, and nothing else is done.
        ensures no_journal { HoldsNone Self.tells (Self.place self.old)
            → AreOnlyRead result (Self.place self.old) (Self.place self.new)
            × (wire.new ≡ wire.old) × ((part : Part) → Self.stays part self.old self.new) }
        // Disks that hold one are only read too, except where a log is made.
        ensures only_read { let old = Self.place self.old in let new = Self.place self.new in
            IsTrue (Self.tells).disk → result ≢ Status.Disk
            → AtMostLogMade old.one old.two new.one new.two }
        ensures unasked { Self.stays the_judges self.old self.new
            × Self.stays the_repos self.old self.new × Self.stays the_clock self.old self.new }
        ensures later { Self.later self.old self.new }
        ensures wire_counts { (W.faults wire.old ≤ W.faults wire.new)
            × (W.send_faults wire.old ≤ W.send_faults wire.new) };

    /// Writes a line for each operation of each shown commit with a number above `cursor` whose
    /// record is in the collection, or in any where none is named, in the order of the events. A
    /// line is that of `json_lines::lines`.
    fn lines(&mut self, alloc: Global, most: u64, cursor: u64, collection: Option<&str>) -> Status
        requires { most ≤ LAST_END }
        ensures ran { (J : List TheRow) → HoldsJournal Self.tells J (Self.place self.old)
            → LinesWritten Self.tells most J (option_map (λ text. text.now) collection.entry) cursor
            (Self.place self.old) (Self.place self.new) result }
        ensures may { MayEndReading result }
        ensures ended { ReadEnded ⊥ Self.tells (Self.place self.old) (Self.place self.new) result }
        // Disks that hold no journal are only read, and nothing else is done.
        ensures no_journal { HoldsNone Self.tells (Self.place self.old)
            → AreOnlyRead result (Self.place self.old) (Self.place self.new)
            × ((part : Part) → Self.stays part self.old self.new) }
        // Disks that hold one are only read too, except where a log is made.
        ensures only_read { let old = Self.place self.old in let new = Self.place self.new in
            IsTrue (Self.tells).disk → result ≢ Status.Disk
            → AtMostLogMade old.one old.two new.one new.two }
        ensures unasked { Self.stays the_judges self.old self.new
            × Self.stays the_repos self.old self.new × Self.stays the_clock self.old self.new }
        ensures later { Self.later self.old self.new };
}

impl<D: Disk, P: Judges, R: Repos, C: Clock, O: Sink> Reads
    for Outside<'_, '_, '_, '_, '_, '_, D, P, R, C, O> {
    fn replay(&mut self, alloc: Global, most: u64, cursor: u64) -> Status {
        let store = match self.pair.open(alloc, most) {
            Ok(store) => store,
            Err(fault) => return Status::from(fault),
        };
        replay_from(
            alloc,
            &store,
            picked(&mut self.pair, store.side()),
            cursor,
            self.out,
        )
    }

    fn serve<G: Door>(&mut self, alloc: Global, most: u64, count: u64, door: &mut G) -> Status {
        let store = match self.pair.open(alloc, most) {
            Ok(store) => store,
            Err(fault) => return Status::from(fault),
        };
        serve_from(
            alloc,
            count,
            &store,
            picked(&mut self.pair, store.side()),
            door,
            self.out,
        )
    }

    fn query<W: Wire>(&mut self, alloc: Global, most: u64, count: u64, wire: &mut W) -> Status {
        let store = match self.pair.open(alloc, most) {
            Ok(store) => store,
            Err(fault) => return Status::from(fault),
        };
        answer_all(alloc, count, store.core(), wire, self.out)
    }

    fn lines(&mut self, alloc: Global, most: u64, cursor: u64, collection: Option<&str>) -> Status {
        let store = match self.pair.open(alloc, most) {
            Ok(store) => store,
            Err(fault) => return Status::from(fault),
        };
        lines_from(
            alloc,
            &store,
            picked(&mut self.pair, store.side()),
            cursor,
            collection,
            self.out,
        )
    }
}
