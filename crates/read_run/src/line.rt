//! Lines, as they are written.

ghost use Rattle.std.specs.Prelude.{◌≡◌, [], Err, IfErr, IsTrue};
ghost use Rattle.at_cid.specs.Counts.{Counted};
ghost use Rattle.run_base.specs.Ends.{IsFinished, IsUnwritten, Writes, status_in};

use relay_io::{Sink, write_all};
use run_base::Status;

/// Writes a line.
pub(crate) fn write_line<O: Sink>(out: &mut O, line: &[u8]) -> Result<(), Status>
    ensures written { IsTrue O.tells
        → Writes (status_in result) [] line.now (O.written out.old) (O.written out.new) }
    ensures few { IfErr result IsUnwritten }
    ensures counts { Counted (result ≡ Err Status.WriteFault)
        (O.faults out.old) (O.faults out.new) }
{
    match write_all(out, line) {
        Ok(()) => Ok(()),
        Err(_) => Err(Status::WriteFault),
    }
}

/// Writes the last line.
pub(crate) fn end_with<O: Sink>(out: &mut O, line: &[u8]) -> Status
    ensures written { IsTrue O.tells
        → Writes result [] line.now (O.written out.old) (O.written out.new) }
    ensures few { IsFinished result }
    ensures counts { Counted (result ≡ Status.WriteFault) (O.faults out.old) (O.faults out.new) }
{
    match write_line(out, line) {
        Ok(()) => Status::Done,
        Err(status) => status,
    }
}
