//! The commands, over the parts that they are handed as one value.

ghost use Rattle.std.specs.Prelude.{◌≡◌, ◌≢◌, ◌≤◌, List, length, IsTrue};
ghost use Rattle.account_state.specs.Folds.{account as account_of};
ghost use Rattle.at_authority.specs.Panels.{IsSpent};
ghost use Rattle.at_form.specs.declared.forms.TheConstants.{LONGEST_SHORT_TEXT};
ghost use Rattle.at_syntax.specs.Did.{is_did, method_of};
ghost use Rattle.gate_log.specs.declared.limits.TheConstants.{LAST_END};
ghost use Rattle.host_state.specs.Folds.{hosts as hosts_of};
ghost use Rattle.relay_row.specs.declared.row.Row.{Row as TheRow};
ghost use Rattle.relay_run.specs.Behind.{WasOperated, WasSynced};
ghost use Rattle.relay_run.specs.Cutting.{WasCut};
ghost use Rattle.relay_run.specs.Lines.{MayEndCutting, MayEndOperating, MayEndShowing, MayEndSyncing};
ghost use Rattle.relay_run.specs.Shown.{TextShown};
ghost use Rattle.run_base.specs.Ends.{AreOnlyRead, Ended, HoldsJournal, HoldsNone};
ghost use Rattle.run_base.specs.Place.{Part, the_clock, the_judges, the_repos};
ghost use Rattle.run_base.specs.Reading.{AtMostLogMade, AtMostLogWritten};
ghost use Rattle.report_lines.specs.StateLines.{account_text, hosts_text};

use crate::answering::{answer, show};
use crate::cut_line::answer_cut;
use at_authority::Judges;
use at_cid::ghost_text;
use relay_disk::Disk;
use relay_io::{Clock, Repos, Sink};
use report_lines::{account_line, host_lines};
use run_base::{Outside, Seen, Status};
use std::alloc::Global;

/// The commands on the journal of two disks that an operator gives. Each opens the store, does its work and writes what came of it. No row
/// of the log is to end past `most`, which is in bytes. `time` is that of the event by which a command goes out.
pub trait Commands: Seen {
    /// Takes an account down, or restores it.
    fn operate(&mut self, alloc: Global, most: u64, did: &str, down: bool, time: &str) -> Status
        requires most { most ≤ LAST_END }
        requires did { IsTrue (is_did did.now) }
        requires time { length time.now ≤ LONGEST_SHORT_TEXT }
        ensures ran { (J : List TheRow) → HoldsJournal Self.tells J (Self.place self.old)
            → WasOperated Self.tells most J did.now down time.now
            (Self.place self.old) (Self.place self.new) result }
        ensures may { MayEndOperating result }
        ensures ended { Ended Self.tells (Self.place self.old) (Self.place self.new) result }
        // Disks that hold no journal are only read, and nothing else is done.
        ensures no_journal { HoldsNone Self.tells (Self.place self.old)
            → AreOnlyRead result (Self.place self.old) (Self.place self.new)
            × ((part : Part) → Self.stays part self.old self.new) }
        // At most the log was written; and where it ended neither well nor by a failure of the output, at most a log was made.
        ensures beside { IsTrue (Self.tells).disk → result ≢ Status.Disk
            → AtMostLogWritten (Self.place self.old).one (Self.place self.old).two
            (Self.place self.new).one (Self.place self.new).two }
        ensures unwritten { IsTrue (Self.tells).disk → result ≢ Status.Disk
            → result ≢ Status.Done → result ≢ Status.WriteFault
            → AtMostLogMade (Self.place self.old).one (Self.place self.old).two
            (Self.place self.new).one (Self.place self.new).two }
        ensures unasked { Self.stays the_judges self.old self.new
            × Self.stays the_repos self.old self.new }
        ensures later { Self.later self.old self.new };

    /// Fetches an account's repository and takes it over.
    fn sync(&mut self, alloc: Global, most: u64, did: &str, time: &str) -> Status
        requires most { most ≤ LAST_END }
        requires did { IsTrue (is_did did.now) }
        requires time { length time.now ≤ LONGEST_SHORT_TEXT }
        ensures ran { (J : List TheRow) → HoldsJournal Self.tells J (Self.place self.old)
            → WasSynced Self.tells most J did.now time.now
            (Self.place self.old) (Self.place self.new) result }
        ensures may { MayEndSyncing result }
        ensures ended { Ended Self.tells (Self.place self.old) (Self.place self.new) result }
        ensures spent { result ≡ Status.Authority
            → IsSpent ((Self.place self.new).around.panel (method_of did.now)) }
        // Disks that hold no journal are only read, and nothing else is done.
        ensures no_journal { HoldsNone Self.tells (Self.place self.old)
            → AreOnlyRead result (Self.place self.old) (Self.place self.new)
            × ((part : Part) → Self.stays part self.old self.new) }
        // At most the log was written; and where it ended neither well nor by a failure of the output, at most a log was made.
        ensures beside { IsTrue (Self.tells).disk → result ≢ Status.Disk
            → AtMostLogWritten (Self.place self.old).one (Self.place self.old).two
            (Self.place self.new).one (Self.place self.new).two }
        ensures unwritten { IsTrue (Self.tells).disk → result ≢ Status.Disk
            → result ≢ Status.Done → result ≢ Status.WriteFault
            → AtMostLogMade (Self.place self.old).one (Self.place self.old).two
            (Self.place self.new).one (Self.place self.new).two }
        ensures later { Self.later self.old self.new };

    /// Takes the events up to a number out of the journal: which events are left, or why it is as it was. What is left is written anew on
    /// the disk that has no log, or the older one.
    fn cut(&mut self, alloc: Global, most: u64, seq: u64) -> Status
        requires { most ≤ LAST_END }
        ensures ran { (J : List TheRow) → HoldsJournal Self.tells J (Self.place self.old)
            → WasCut Self.place Self.tells most J seq
            (Self.place self.old) (Self.place self.new) result }
        ensures may { MayEndCutting result }
        ensures ended { Ended Self.tells (Self.place self.old) (Self.place self.new) result }
        // Disks that hold no journal are only read, and nothing else is done.
        ensures no_journal { HoldsNone Self.tells (Self.place self.old)
            → AreOnlyRead result (Self.place self.old) (Self.place self.new)
            × ((part : Part) → Self.stays part self.old self.new) }
        ensures unasked { Self.stays the_judges self.old self.new
            × Self.stays the_repos self.old self.new × Self.stays the_clock self.old self.new }
        ensures later { Self.later self.old self.new };

    /// Writes the line of an account, as the journal leaves it.
    fn account(&mut self, alloc: Global, most: u64, did: &str) -> Status
        requires { most ≤ LAST_END }
        ensures ran { (J : List TheRow) → HoldsJournal Self.tells J (Self.place self.old)
            → TextShown Self.tells most J (account_text did.now (account_of did.now J))
            (Self.place self.old) (Self.place self.new) result }
        ensures may { MayEndShowing result }
        ensures ended { Ended Self.tells (Self.place self.old) (Self.place self.new) result }
        // Disks that hold no journal are only read, and nothing else is done.
        ensures no_journal { HoldsNone Self.tells (Self.place self.old)
            → AreOnlyRead result (Self.place self.old) (Self.place self.new)
            × ((part : Part) → Self.stays part self.old self.new) }
        // At most a log was made.
        ensures only_read { IsTrue (Self.tells).disk → result ≢ Status.Disk
            → AtMostLogMade (Self.place self.old).one (Self.place self.old).two
            (Self.place self.new).one (Self.place self.new).two }
        ensures unasked { Self.stays the_judges self.old self.new
            × Self.stays the_repos self.old self.new × Self.stays the_clock self.old self.new }
        ensures later { Self.later self.old self.new };

    /// Writes the lines of the hosts, as the journal leaves them, in first-seen order.
    fn hosts(&mut self, alloc: Global, most: u64) -> Status
        requires { most ≤ LAST_END }
        ensures ran { (J : List TheRow) → HoldsJournal Self.tells J (Self.place self.old)
            → TextShown Self.tells most J (hosts_text (hosts_of J))
            (Self.place self.old) (Self.place self.new) result }
        ensures may { MayEndShowing result }
        ensures ended { Ended Self.tells (Self.place self.old) (Self.place self.new) result }
        // Disks that hold no journal are only read, and nothing else is done.
        ensures no_journal { HoldsNone Self.tells (Self.place self.old)
            → AreOnlyRead result (Self.place self.old) (Self.place self.new)
            × ((part : Part) → Self.stays part self.old self.new) }
        // At most a log was made.
        ensures only_read { IsTrue (Self.tells).disk → result ≢ Status.Disk
            → AtMostLogMade (Self.place self.old).one (Self.place self.old).two
            (Self.place self.new).one (Self.place self.new).two }
        ensures unasked { Self.stays the_judges self.old self.new
            × Self.stays the_repos self.old self.new × Self.stays the_clock self.old self.new }
        ensures later { Self.later self.old self.new };
}

impl<D: Disk, P: Judges, R: Repos, C: Clock, O: Sink> Commands
    for Outside<'_, '_, '_, '_, '_, '_, D, P, R, C, O> {
    fn operate(&mut self, alloc: Global, most: u64, did: &str, down: bool, time: &str) -> Status {
        ghost_text(time);
        let mut store = match self.pair.open(alloc, most) {
            Ok(store) => store,
            Err(fault) => return Status::from(fault),
        };
        match self
            .pair
            .operate(alloc, &mut store, did, down, time, &mut self.asked)
        {
            Ok(done) => answer(alloc, &done, self.out),
            Err(fault) => Status::from(fault),
        }
    }

    fn sync(&mut self, alloc: Global, most: u64, did: &str, time: &str) -> Status {
        ghost_text(time);
        let mut store = match self.pair.open(alloc, most) {
            Ok(store) => store,
            Err(fault) => return Status::from(fault),
        };
        match self
            .pair
            .sync_now(alloc, &mut store, did, time, &mut self.asked)
        {
            Ok(done) => answer(alloc, &done, self.out),
            Err(fault) => Status::from(fault),
        }
    }

    fn cut(&mut self, alloc: Global, most: u64, seq: u64) -> Status {
        let mut store = match self.pair.open(alloc, most) {
            Ok(store) => store,
            Err(fault) => return Status::from(fault),
        };
        match self.pair.cut(alloc, &mut store, seq) {
            Ok(done) => answer_cut(alloc, seq, &done, self.out),
            Err(fault) => Status::from(fault),
        }
    }

    fn account(&mut self, alloc: Global, most: u64, did: &str) -> Status {
        match self.pair.open(alloc, most) {
            Ok(store) => match account_line(alloc, did, store.account(did)) {
                Ok(line) => show(line.as_slice(), self.out),
                Err(_) => Status::Memory,
            },
            Err(fault) => Status::from(fault),
        }
    }

    fn hosts(&mut self, alloc: Global, most: u64) -> Status {
        match self.pair.open(alloc, most) {
            Ok(store) => match host_lines(alloc, store.hosts()) {
                Ok(lines) => show(lines.as_slice(), self.out),
                Err(_) => Status::Memory,
            },
            Err(fault) => Status::from(fault),
        }
    }
}
