//! The command `check`.
ghost use Rattle.std.specs.Prelude.{◌≡◌, ◌≢◌, ◌≤◌};
ghost use Rattle.relay_cli.specs.Runs.{Checked, streams};

use crate::judging::judge;
use crate::report::report;
use relay_io::{ReadFault, Sink, Source, read_to_end, write_all};
use run_base::Status;
use std::alloc::Global;

/// Reads the whole input as one message of at most `limit` bytes, and writes what it comes to.
pub fn check<I: Source, O: Sink>(alloc: Global, limit: usize, input: &mut I, out: &mut O) -> Status
    ensures checked { Checked limit (streams I.tells (I.left input.old) (I.faults input.old) O.tells
        (O.written out.old) (O.faults out.old))
        (streams I.tells (I.left input.new) (I.faults input.new) O.tells (O.written out.new)
        (O.faults out.new)) result }
    ensures in_counts { I.faults input.old ≤ I.faults input.new }
    ensures out_counts { O.faults out.old ≤ O.faults out.new }
    ensures input_steady { result ≢ Status.ReadFault → I.faults input.new ≡ I.faults input.old }
    ensures out_steady { result ≢ Status.WriteFault → O.faults out.new ≡ O.faults out.old }
{
    let message = match read_to_end(alloc, input, limit) {
        Ok(message) => message,
        Err(ReadFault::Failed) => return Status::ReadFault,
        Err(ReadFault::TooLong) => return Status::TooLong,
        Err(ReadFault::Memory) => return Status::Memory,
    };
    let Ok(verdict) = judge(alloc, message) else {
        return Status::Memory;
    };
    let Ok(line) = report(alloc, &verdict) else {
        return Status::Memory;
    };
    match write_all(out, line.as_slice()) {
        Ok(()) => verdict.status(),
        Err(_) => Status::WriteFault,
    }
}
