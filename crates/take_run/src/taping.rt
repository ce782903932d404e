//! Taking a whole tape.

ghost use Rattle.std.specs.Prelude.{◌≡◌, ◌≤◌, ◌<◌, ◌^◌, List};
ghost use Rattle.gate_log.specs.Pick.{other_side};
ghost use Rattle.relay_row.specs.declared.row.Row.{Row as TheRow};
ghost use Rattle.relay_store.specs.Store.{IsOf, seen_in};
ghost use Rattle.run_base.specs.Place.{with_input};
ghost use Rattle.take_run.specs.Ends.{FaultsTold, MayEndIngesting, MayHideInput};
ghost use Rattle.take_run.specs.Going.{IsNew, IsReady, TapeTaken, at};
ghost use Rattle.take_run.specs.Ingested.{input_at};

use crate::answering::finish;
use crate::batching::Batches;
use crate::end::status_of;
use crate::group::{Rest, read_group};
use crate::run::Run;
use at_authority::Judges;
use relay_disk::Disk;
use relay_io::{Clock, Repos, Sink, Source};
use run_base::{Outside, Seen, Status};
use std::alloc::Global;
use tape::Tape;

/// Tapes, taken in one run.
pub trait Tapes: Seen {
    /// Takes the messages of a tape in groups, and writes the report: a line for each message once its row is durable, and at the end
    /// of the tape one more. Of the input at most `limit` bytes are taken.
    fn take_tape<I: Source>(
        &mut self,
        alloc: Global,
        run: &mut Run,
        limit: u64,
        input: &mut I,
    ) -> Status
        requires ready { IsReady Self.tells (at run.old (Self.place self.old)) }
        requires new { IsNew run.old.tally }
        requires limit { limit < 2 ^ 63 }
        ensures taken { (J : List TheRow) → IsOf J run.old.store.core
            → TapeTaken Self.tells I.tells limit J
            (at run.old (Self.place self.old)) (at run.new (Self.place self.new))
            (input_at (I.left input.old) (I.faults input.old))
            (input_at (I.left input.new) (I.faults input.new)) result }
        ensures may { MayEndIngesting result }
        ensures faults { FaultsTold (MayHideInput result)
            (with_input (I.faults input.old) (Self.place self.old))
            (with_input (I.faults input.new) (Self.place self.new)) result }
        ensures side { (seen_in run.new.store).side ≡ (seen_in run.old.store).side }
        ensures beside { Self.rests (other_side (seen_in run.old.store).side) self.old self.new }
        ensures later { Self.later self.old self.new }
        ensures counts { I.faults input.old ≤ I.faults input.new };
}

impl<D: Disk, P: Judges, R: Repos, C: Clock, O: Sink> Tapes
    for Outside<'_, '_, '_, '_, '_, '_, D, P, R, C, O> {
    fn take_tape<I: Source>(
        &mut self,
        alloc: Global,
        run: &mut Run,
        limit: u64,
        input: &mut I,
    ) -> Status {
        let mut tape = Tape::new(alloc, limit);
        'groups: loop {
            let group = read_group(alloc, &mut tape, input);
            match self.take_group(alloc, run, group.messages.as_slice()) {
                Ok(()) => {}
                Err(status) => return status,
            }
            match group.rest {
                Rest::More => {}
                Rest::Nothing => {
                    return finish(alloc, run.store.last_seq(), &run.tally, self.out);
                }
                Rest::Fault(fault) => return status_of(fault),
            }
        }
    }
}
