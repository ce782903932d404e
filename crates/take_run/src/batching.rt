//! Taking a group of messages, with their lines.

ghost use Rattle.std.specs.Prelude.{◌≡◌, ◌≤◌, ◌+◌, ◌^◌, Ok, List, OnOk, IfOk, length, take};
ghost use Rattle.gate_log.specs.Pick.{other_side};
ghost use Rattle.relay_row.specs.declared.limits.TheConstants.{MOST_ROWS};
ghost use Rattle.relay_row.specs.declared.row.Row.{Row as TheRow};
ghost use Rattle.relay_store.specs.Store.{IsOf, seen_in};
ghost use Rattle.store_take.specs.Taking.{AreOfHosts};
ghost use Rattle.take_run.specs.Going.{IsReady, PartEnded, TookAll, TookSome, at};
ghost use Rattle.take_run.specs.Said.{AreLive, FirstHasEnded};

use crate::answering::{answer, skip};
use crate::live::{live_front, live_still};
use crate::run::Run;
use at_authority::Judges;
use relay_disk::Disk;
use relay_io::{Clock, Repos, Sink};
use run_base::{Outside, Seen, Status};
use std::alloc::Global;
use store_take::Message;

/// Groups of messages, taken one after another in one run.
pub trait Batches: Seen {
    /// Takes messages of hosts that haven't ended, writes the lines of those that are answered, and says how many those are.
    fn take_live(
        &mut self,
        alloc: Global,
        run: &mut Run,
        group: &[Message],
    ) -> Result<usize, Status>
        requires ready { IsReady Self.tells (at run.old (Self.place self.old)) }
        requires some { 1 ≤ length group.now }
        requires few { length group.now ≤ MOST_ROWS }
        requires hosts { AreOfHosts group.now }
        requires live { AreLive run.old.tally.ended.items group.now }
        requires room { run.old.tally.messages + length group.now ≤ 2 ^ 63 }
        ensures taken { (J : List TheRow) → IsOf J run.old.store.core
            → TookSome Self.tells J group.now (at run.old (Self.place self.old))
            (at run.new (Self.place self.new)) result }
        ensures ready { OnOk result (IsReady Self.tells (at run.new (Self.place self.new))) }
        ensures some { IfOk result (λ n. 1 ≤ n) }
        ensures few { IfOk result (λ n. n ≤ length group.now) }
        ensures count { IfOk result (λ n. run.new.tally.messages ≤ run.old.tally.messages + n) }
        ensures ended { OnOk result (take (length run.old.tally.ended.items)
            run.new.tally.ended.items ≡ run.old.tally.ended.items) }
        ensures part { PartEnded (Self.place self.old) (Self.place self.new) result }
        ensures side { (seen_in run.new.store).side ≡ (seen_in run.old.store).side }
        ensures beside { Self.rests (other_side (seen_in run.old.store).side) self.old self.new }
        ensures later { Self.later self.old self.new };

    /// Takes some messages in front of the group, of which the first `live` are of hosts that haven't ended, and says how many.
    fn take_some(
        &mut self,
        alloc: Global,
        run: &mut Run,
        group: &[Message],
        live: usize,
    ) -> Result<usize, Status>
        requires ready { IsReady Self.tells (at run.old (Self.place self.old)) }
        requires some { 1 ≤ length group.now }
        requires few { length group.now ≤ MOST_ROWS }
        requires hosts { AreOfHosts group.now }
        requires within { live ≤ length group.now }
        requires live { AreLive run.old.tally.ended.items (take live group.now) }
        requires ended { live ≡ 0 → FirstHasEnded run.old.tally.ended.items group.now }
        requires room { run.old.tally.messages + length group.now ≤ 2 ^ 63 }
        ensures taken { (J : List TheRow) → IsOf J run.old.store.core
            → TookSome Self.tells J group.now (at run.old (Self.place self.old))
            (at run.new (Self.place self.new)) result }
        ensures ready { OnOk result (IsReady Self.tells (at run.new (Self.place self.new))) }
        ensures some { IfOk result (λ n. 1 ≤ n) }
        ensures few { IfOk result (λ n. n ≤ length group.now) }
        ensures count { IfOk result (λ n. run.new.tally.messages ≤ run.old.tally.messages + n) }
        ensures ended { OnOk result (take (length run.old.tally.ended.items)
            run.new.tally.ended.items ≡ run.old.tally.ended.items) }
        ensures part { PartEnded (Self.place self.old) (Self.place self.new) result }
        ensures side { (seen_in run.new.store).side ≡ (seen_in run.old.store).side }
        ensures beside { Self.rests (other_side (seen_in run.old.store).side) self.old self.new }
        ensures later { Self.later self.old self.new };

    /// Takes a group of messages in batches: those of hosts that ended before are skipped, and each batch stops at the end of a host.
    fn take_group(&mut self, alloc: Global, run: &mut Run, group: &[Message]) -> Result<(), Status>
        requires ready { IsReady Self.tells (at run.old (Self.place self.old)) }
        requires few { length group.now ≤ MOST_ROWS }
        requires hosts { AreOfHosts group.now }
        requires room { run.old.tally.messages + length group.now ≤ 2 ^ 63 }
        ensures taken { (J : List TheRow) → IsOf J run.old.store.core
            → TookAll Self.tells J group.now (at run.old (Self.place self.old))
            (at run.new (Self.place self.new)) result }
        ensures ready { OnOk result (IsReady Self.tells (at run.new (Self.place self.new))) }
        ensures count { OnOk result
            (run.new.tally.messages ≤ run.old.tally.messages + length group.now) }
        ensures part { PartEnded (Self.place self.old) (Self.place self.new) result }
        ensures side { (seen_in run.new.store).side ≡ (seen_in run.old.store).side }
        ensures beside { Self.rests (other_side (seen_in run.old.store).side) self.old self.new }
        ensures later { Self.later self.old self.new };
}

impl<D: Disk, P: Judges, R: Repos, C: Clock, O: Sink> Batches
    for Outside<'_, '_, '_, '_, '_, '_, D, P, R, C, O> {
    fn take_live(
        &mut self,
        alloc: Global,
        run: &mut Run,
        group: &[Message],
    ) -> Result<usize, Status> {
        let batch = self
            .pair
            .take_all(alloc, &mut run.store, group, &mut self.asked);
        let outcomes = batch.outcomes.as_slice();
        match answer(alloc, group, outcomes, &mut run.tally, self.out) {
            Ok(()) => {}
            Err(status) => return Err(status),
        }
        match batch.fault {
            None => Ok(outcomes.len()),
            Some(fault) => Err(Status::from(fault)),
        }
    }

    fn take_some(
        &mut self,
        alloc: Global,
        run: &mut Run,
        group: &[Message],
        live: usize,
    ) -> Result<usize, Status> {
        if live == 0 {
            return match skip(alloc, group[0].host.as_str(), &mut run.tally, self.out) {
                Ok(()) => Ok(1),
                Err(status) => Err(status),
            };
        }
        self.take_live(alloc, run, &group[..live])
    }

    fn take_group(
        &mut self,
        alloc: Global,
        run: &mut Run,
        group: &[Message],
    ) -> Result<(), Status> {
        let mut done = 0;
        let mut live = live_front(group, &run.tally);
        'batches: while done < group.len() {
            let before = run.tally.ended.len();
            match self.take_some(alloc, run, &group[done..], live) {
                Ok(count) => {
                    done += count;
                    live = live_still(
                        &group[done..],
                        live.saturating_sub(count),
                        before,
                        &run.tally,
                    );
                }
                Err(status) => return Err(status),
            }
        }
        Ok(())
    }
}
