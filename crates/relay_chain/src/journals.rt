//! Taking what a journal serves.

ghost use Rattle.std.specs.Prelude.{◌≡◌, ◌≤◌, true, List, Some, IsTrue};
ghost use Rattle.at_syntax.specs.Host.{is_host};
ghost use Rattle.backfill.specs.Served.{served};
ghost use Rattle.event_window.specs.Held.{Held};
ghost use Rattle.gate_log.specs.Pick.{other_side, view_of_side};
ghost use Rattle.relay_disk.specs.Disk.{Goes, Same};
ghost use Rattle.relay_row.specs.Folds.{cursor};
ghost use Rattle.relay_row.specs.declared.row.Row.{Row as TheRow};
ghost use Rattle.relay_store.specs.Opening.{BothOnlyRead};
ghost use Rattle.relay_store.specs.Shown.{held_by};
ghost use Rattle.relay_store.specs.Store.{IsKept, IsOf, Keeps, seen_in};
ghost use Rattle.at_cid.specs.Counts.{Counted};
ghost use Rattle.run_base.specs.Place.{SamePair};
ghost use Rattle.take_run.specs.Going.{IsNew, IsReady, at};
ghost use Rattle.relay_chain.specs.Disks.{CountedOf, disks_of};
ghost use Rattle.relay_chain.specs.Ends.{ChainTold, MayEndChaining, ended_by};
ghost use Rattle.relay_chain.specs.Taking.{TakenOf};

use crate::stream::JournalStream;
use at_authority::TrustAll;
use at_cid::NUMBERS;
use backfill::StreamPlace;
use event_window::{Events, EventsFault};
use gate_log::Side;
use relay_disk::Disk;
use relay_io::{Clock, Repos, Sink};
use relay_store::Store;
use run_base::{Outside, Pair, Seen, Status};
use std::alloc::Global;
use store_read::events;
use take_run::{Run, Streams};

/// More messages than a journal serves: one for each number, and what is said of the cursor.
pub const MOST_SERVED: u64 = NUMBERS + 1;

// How reading a journal and taking its messages ends.
fn ended(fault: Option<EventsFault>, taking: Status) -> Status
    ensures { result ≡ ended_by fault taking }
{
    match fault {
        None => taking,
        Some(EventsFault::Disk) => Status::Disk,
        Some(EventsFault::Memory) => Status::Memory,
        Some(EventsFault::BadLog(place)) => Status::BadLog(place),
    }
}

/// Journals, whose messages are taken in one run.
pub trait Journals: Seen {
    /// Takes the messages of these events that follow the host's cursor, none after its end, and writes the report: a line for each
    /// message once its row is durable, and one more where it is done.
    fn take_events<E: Events>(
        &mut self,
        alloc: Global,
        run: &mut Run,
        host: &str,
        events: &mut E,
    ) -> Status
        requires ready { IsReady Self.tells (at run.old (Self.place self.old)) }
        requires new { IsNew run.old.tally }
        requires host { is_host host.now ≡ true }
        requires known { IsTrue E.tells → (held : Held) × E.holds events.old held }
        ensures taken { IsTrue E.tells → (held : Held) → E.holds events.old held
            → (J : List TheRow) → IsOf J run.old.store.core
            → TakenOf Self.tells host.now (served held (Some (cursor host.now J))) J
            (at run.old (Self.place self.old)) (at run.new (Self.place self.new)) result }
        ensures may { MayEndChaining result }
        ensures told { ChainTold
            (λ failed. Counted failed (E.faults events.old) (E.faults events.new))
            (Self.place self.old) (Self.place self.new) result }
        ensures events { E.later events.old events.new }
        ensures side { (seen_in run.new.store).side ≡ (seen_in run.old.store).side }
        ensures beside { Self.rests (other_side (seen_in run.old.store).side) self.old self.new }
        ensures later { Self.later self.old self.new };

    /// Takes what this store serves, read back from its disk.
    fn take_store<D: Disk>(
        &mut self,
        alloc: Global,
        run: &mut Run,
        host: &str,
        source: &Store,
        disk: &mut D,
    ) -> Status
        requires ready { IsReady Self.tells (at run.old (Self.place self.old)) }
        requires new { IsNew run.old.tally }
        requires host { is_host host.now ≡ true }
        requires source { IsTrue D.tells → IsKept (seen_in source.now) (D.view disk.old) }
        ensures taken { IsTrue D.tells → (one : List TheRow)
            → Keeps one (seen_in source.now) (D.view disk.old)
            → (J : List TheRow) → IsOf J run.old.store.core
            → TakenOf Self.tells host.now (served (held_by one) (Some (cursor host.now J))) J
            (at run.old (Self.place self.old)) (at run.new (Self.place self.new)) result }
        ensures may { MayEndChaining result }
        ensures told { ChainTold
            (λ failed. Counted failed (D.view disk.old).faults (D.view disk.new).faults)
            (Self.place self.old) (Self.place self.new) result }
        ensures goes { Goes Same (D.view disk.old) (D.view disk.new) }
        ensures side { (seen_in run.new.store).side ≡ (seen_in run.old.store).side }
        ensures beside { Self.rests (other_side (seen_in run.old.store).side) self.old self.new }
        ensures later { Self.later self.old self.new };

    /// Takes what this store serves, read back from the disk of its side.
    fn take_pair<D: Disk>(
        &mut self,
        alloc: Global,
        run: &mut Run,
        host: &str,
        source: &Store,
        first: &mut Pair<D>,
    ) -> Status
        requires ready { IsReady Self.tells (at run.old (Self.place self.old)) }
        requires new { IsNew run.old.tally }
        requires host { is_host host.now ≡ true }
        requires source { IsTrue D.tells → IsKept (seen_in source.now) (view_of_side
            (seen_in source.now).side (D.view first.old.one.now) (D.view first.old.two.now)) }
        ensures taken { IsTrue D.tells → (one : List TheRow)
            → Keeps one (seen_in source.now) (view_of_side (seen_in source.now).side
            (D.view first.old.one.now) (D.view first.old.two.now))
            → (J : List TheRow) → IsOf J run.old.store.core
            → TakenOf Self.tells host.now (served (held_by one) (Some (cursor host.now J))) J
            (at run.old (Self.place self.old)) (at run.new (Self.place self.new)) result }
        ensures may { MayEndChaining result }
        ensures told { ChainTold
            (CountedOf (disks_of D.tells D.view first.old) (disks_of D.tells D.view first.new))
            (Self.place self.old) (Self.place self.new) result }
        ensures read { BothOnlyRead (D.view first.old.one.now) (D.view first.old.two.now)
            (D.view first.new.one.now) (D.view first.new.two.now) }
        ensures first { SamePair first.old first.new }
        ensures side { (seen_in run.new.store).side ≡ (seen_in run.old.store).side }
        ensures beside { Self.rests (other_side (seen_in run.old.store).side) self.old self.new }
        ensures later { Self.later self.old self.new };
}

impl<S: Disk, R: Repos, C: Clock, O: Sink> Journals
    for Outside<'_, '_, '_, '_, '_, '_, S, TrustAll, R, C, O> {
    fn take_events<E: Events>(
        &mut self,
        alloc: Global,
        run: &mut Run,
        host: &str,
        events: &mut E,
    ) -> Status {
        let place = StreamPlace::Start(run.store.core().cursor(host));
        let mut stream = JournalStream {
            events,
            place,
            fault: None,
        };
        let taking = self.take_stream(alloc, run, host, MOST_SERVED, &mut stream);
        ended(stream.fault, taking)
    }

    fn take_store<D: Disk>(
        &mut self,
        alloc: Global,
        run: &mut Run,
        host: &str,
        source: &Store,
        disk: &mut D,
    ) -> Status {
        let mut events = events(source, alloc, disk);
        self.take_events(alloc, run, host, &mut events)
    }

    fn take_pair<D: Disk>(
        &mut self,
        alloc: Global,
        run: &mut Run,
        host: &str,
        source: &Store,
        first: &mut Pair<D>,
    ) -> Status {
        match source.side() {
            Side::One => self.take_store(alloc, run, host, source, first.one),
            Side::Two => self.take_store(alloc, run, host, source, first.two),
        }
    }
}
