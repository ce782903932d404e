//! The lines of requests.

ghost use Rattle.std.specs.Prelude.{◌≡◌, [], IfErr, IfOk, IsTrue, Err};
ghost use Rattle.at_cid.specs.Counts.{Counted};
ghost use Rattle.run_base.specs.Ends.{IsFinished, IsUnwritten, Writes, status_in};
ghost use Rattle.read_run.specs.Rounds.{queries_end_line, request_line};

use crate::line::{end_with, write_line};
use at_cid::{Memory, Octets};
use relay_io::Sink;
use report_lines::add_number;
use run_base::Status;
use std::alloc::Global;

// The line of the request of this number.
fn line_of(alloc: Global, number: u64, told: &[u8]) -> Result<Octets, Memory>
    ensures { IfOk result (λ line. line ≡ request_line number told.now) }
{
    let mut line = Octets::new(alloc);
    line.extend(b"query ")?;
    add_number(&mut line, number)?;
    line.extend(b" ")?;
    line.extend(told)?;
    line.extend(b"\n")?;
    Ok(line)
}

// The last line.
fn last_line(alloc: Global, count: u64) -> Result<Octets, Memory>
    ensures { IfOk result (λ line. line ≡ queries_end_line count) }
{
    let mut line = Octets::new(alloc);
    line.extend(b"end ")?;
    add_number(&mut line, count)?;
    line.extend(b"\n")?;
    Ok(line)
}

/// Writes the line of the request of this number.
pub(crate) fn write_request<O: Sink>(
    alloc: Global,
    number: u64,
    told: &[u8],
    out: &mut O,
) -> Result<(), Status>
    ensures written { IsTrue O.tells → Writes (status_in result) [] (request_line number told.now)
        (O.written out.old) (O.written out.new) }
    ensures few { IfErr result IsUnwritten }
    ensures counts { Counted (result ≡ Err Status.WriteFault)
        (O.faults out.old) (O.faults out.new) }
{
    match line_of(alloc, number, told) {
        Ok(line) => write_line(out, line.as_slice()),
        Err(_) => Err(Status::Memory),
    }
}

/// Writes the last line, with the number of requests.
pub(crate) fn end_requests<O: Sink>(alloc: Global, count: u64, out: &mut O) -> Status
    ensures written { IsTrue O.tells → Writes result [] (queries_end_line count)
        (O.written out.old) (O.written out.new) }
    ensures few { IsFinished result }
    ensures counts { Counted (result ≡ Status.WriteFault) (O.faults out.old) (O.faults out.new) }
{
    match last_line(alloc, count) {
        Ok(line) => end_with(out, line.as_slice()),
        Err(_) => Status::Memory,
    }
}
