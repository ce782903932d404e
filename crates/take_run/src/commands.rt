//! The commands by which messages are taken, over the parts that they are handed as one value.

ghost use Rattle.std.specs.Prelude.{◌≡◌, ◌≢◌, ◌≤◌, ◌<◌, ◌^◌, ◌⊎◌, true, ℕ, List, length, IsTrue};
ghost use Rattle.at_syntax.specs.Host.{is_host};
ghost use Rattle.gate_log.specs.declared.limits.TheConstants.{LAST_END};
ghost use Rattle.relay_row.specs.declared.row.Row.{Row as TheRow};
ghost use Rattle.store_take.specs.declared.message.Message.{Message as TheMessage};
ghost use Rattle.run_base.specs.Ends.{AreOnlyRead, HoldsJournal, HoldsNone, Shows};
ghost use Rattle.run_base.specs.Place.{Part, with_feed, with_input};
ghost use Rattle.run_base.specs.Reading.{AtMostLogWritten};
ghost use Rattle.take_run.specs.Ends.{FaultsTold, MayEndFollowing, MayEndIngesting, MayHideInput};
ghost use Rattle.take_run.specs.Ingested.{Followed, Ingested, input_at};
ghost use Rattle.take_run.specs.Taken.{Unopened};
ghost use Rattle.take_run.specs.Tapes.{AreRecords, encoded_records};

use crate::run::Run;
use crate::streaming::Streams;
use crate::tally::Tally;
use crate::taping::Tapes;
use at_authority::Judges;
use relay_disk::Disk;
use relay_io::{Clock, Feed, Repos, Sink, Source};
use run_base::{Outside, Seen, Status};
use std::alloc::Global;

/// The commands by which messages are taken into the journal of two disks. Each opens the store, takes them, and writes the report: a
/// line for each message once its row is durable, and where it is done one more. No row of the log is to end past `most`, which is in
/// bytes.
pub trait Takes: Seen {
    /// Takes the messages of a tape. Of the input at most `limit` bytes are taken.
    fn ingest<I: Source>(&mut self, alloc: Global, most: u64, limit: u64, input: &mut I) -> Status
        requires most { most ≤ LAST_END }
        requires limit { limit < 2 ^ 63 }
        ensures ran { (J : List TheRow) → HoldsJournal Self.tells J (Self.place self.old)
            → (Unopened Self.tells most J (Self.place self.old) (Self.place self.new) result
            × (input.new ≡ input.old) × ((part : Part) → Self.stays part self.old self.new))
            ⊎ Ingested Self.tells I.tells most limit J (Self.place self.old) (Self.place self.new)
            (input_at (I.left input.old) (I.faults input.old))
            (input_at (I.left input.new) (I.faults input.new)) result }
        ensures may { MayEndIngesting result }
        ensures shows { let old = Self.place self.old in
            IsTrue (Self.tells).disk → Shows result old.one.content old.two.content }
        ensures faults { FaultsTold (MayHideInput result)
            (with_input (I.faults input.old) (Self.place self.old))
            (with_input (I.faults input.new) (Self.place self.new)) result }
        // Disks that hold no journal are only read, and nothing else is done.
        ensures no_journal { HoldsNone Self.tells (Self.place self.old)
            → AreOnlyRead result (Self.place self.old) (Self.place self.new)
            × (input.new ≡ input.old) × ((part : Part) → Self.stays part self.old self.new) }
        // The side that held no log was only read.
        ensures beside { let old = Self.place self.old in let new = Self.place self.new in
            IsTrue (Self.tells).disk → result ≢ Status.Disk
            → AtMostLogWritten old.one old.two new.one new.two }
        // A whole tape shows no fault, and isn't too long.
        ensures whole { (J : List TheRow) → HoldsJournal Self.tells J (Self.place self.old)
            → IsTrue I.tells → (messages : List TheMessage) → AreRecords messages
            → I.left input.old ≡ encoded_records messages
            → length (encoded_records messages) < limit
            → ((place : ℕ) → result ≢ Status.BadTape place) × (result ≢ Status.TooLong) }
        ensures later { Self.later self.old self.new }
        ensures input_counts { I.faults input.old ≤ I.faults input.new };

    /// Takes the messages that a feed gives of a host after its cursor, at most `count` and none after the host's end.
    fn follow<F: Feed>(
        &mut self,
        alloc: Global,
        most: u64,
        host: &str,
        count: u64,
        feed: &mut F,
    ) -> Status
        requires most { most ≤ LAST_END }
        requires host { is_host host.now ≡ true }
        requires count { count < 2 ^ 63 }
        ensures ran { (J : List TheRow) → HoldsJournal Self.tells J (Self.place self.old)
            → (Unopened Self.tells most J (Self.place self.old) (Self.place self.new) result
            × (feed.new ≡ feed.old) × ((part : Part) → Self.stays part self.old self.new))
            ⊎ Followed Self.tells F.tells host.now most count J
            (Self.place self.old) (Self.place self.new)
            (F.behind feed.old host.now) (F.left feed.new) result }
        ensures may { MayEndFollowing result }
        ensures shows { let old = Self.place self.old in
            IsTrue (Self.tells).disk → Shows result old.one.content old.two.content }
        ensures faults { FaultsTold ⊥ (with_feed (F.faults feed.old) (Self.place self.old))
            (with_feed (F.faults feed.new) (Self.place self.new)) result }
        // Disks that hold no journal are only read, and nothing else is done.
        ensures no_journal { HoldsNone Self.tells (Self.place self.old)
            → AreOnlyRead result (Self.place self.old) (Self.place self.new)
            × (feed.new ≡ feed.old) × ((part : Part) → Self.stays part self.old self.new) }
        // The side that held no log was only read.
        ensures beside { let old = Self.place self.old in let new = Self.place self.new in
            IsTrue (Self.tells).disk → result ≢ Status.Disk
            → AtMostLogWritten old.one old.two new.one new.two }
        ensures later { Self.later self.old self.new }
        ensures feed_counts { F.faults feed.old ≤ F.faults feed.new };
}

impl<D: Disk, P: Judges, R: Repos, C: Clock, O: Sink> Takes
    for Outside<'_, '_, '_, '_, '_, '_, D, P, R, C, O> {
    fn ingest<I: Source>(&mut self, alloc: Global, most: u64, limit: u64, input: &mut I) -> Status {
        let store = match self.pair.open(alloc, most) {
            Ok(store) => store,
            Err(fault) => return Status::from(fault),
        };
        let tally = Tally::new(alloc);
        let mut run = Run { store, tally };
        self.take_tape(alloc, &mut run, limit, input)
    }

    fn follow<F: Feed>(
        &mut self,
        alloc: Global,
        most: u64,
        host: &str,
        count: u64,
        feed: &mut F,
    ) -> Status {
        let store = match self.pair.open(alloc, most) {
            Ok(store) => store,
            Err(fault) => return Status::from(fault),
        };
        let tally = Tally::new(alloc);
        let mut run = Run { store, tally };
        self.take_feed(alloc, &mut run, host, count, feed)
    }
}
