//! Requests that are answered one after another.

ghost use Rattle.std.specs.Prelude.{◌≡◌, ◌<◌, ◌^◌, List, Err, IfErr, IsTrue};
ghost use Rattle.relay_row.specs.declared.row.Row.{Row as TheRow};
ghost use Rattle.relay_core.specs.Entries.{Holds};
ghost use Rattle.at_cid.specs.Counts.{Counted};
ghost use Rattle.run_base.specs.Ends.{Writes};
ghost use Rattle.read_run.specs.AtWire.{at_wire};
ghost use Rattle.read_run.specs.Ends.{CountedWithin, IsOfDisks, IsUnasked, MayEndQuerying};
ghost use Rattle.read_run.specs.Queried.{Comes, Queried, queries_end, query_lines};

use crate::request::end_requests;
use crate::round::answer_one;
use at_cid::Octets;
use relay_core::Core;
use relay_io::{Sink, Wire, WireFault};
use run_base::Status;
use std::alloc::Global;

// Has the next request come into the room.
fn come<W: Wire>(wire: &mut W, room: &mut Octets) -> Result<bool, Status>
    ensures came { Comes W.tells room.new
        (at_wire (W.requests wire.old) (W.exchanges wire.old) (W.send_faults wire.old))
        (at_wire (W.requests wire.new) (W.exchanges wire.new) (W.send_faults wire.new)) result }
    ensures few { IfErr result IsUnasked }
    ensures counts { Counted (result ≡ Err Status.Wire) (W.faults wire.old) (W.faults wire.new) }
    ensures send { W.send_faults wire.new ≡ W.send_faults wire.old }
{
    match wire.next(room) {
        Ok(more) => Ok(more),
        Err(WireFault::Failed) => Err(Status::Wire),
        Err(WireFault::Memory) => Err(Status::Memory),
    }
}

/// Answers at most `count` requests by the relay's state, one after another in the order of the
/// wire, and writes a line for each and the last line.
pub(crate) fn answer_all<W: Wire, O: Sink>(
    alloc: Global,
    count: u64,
    core: &Core,
    wire: &mut W,
    out: &mut O,
) -> Status
    ensures queried { (J : List TheRow) → Holds core.now J
        → (q : Queried W.tells count J
        (at_wire (W.requests wire.old) (W.exchanges wire.old) (W.send_faults wire.old))
        (at_wire (W.requests wire.new) (W.exchanges wire.new) (W.send_faults wire.new)) result)
        × (IsTrue O.tells → Writes result (query_lines q) (queries_end q)
        (O.written out.old) (O.written out.new)) }
    ensures may { MayEndQuerying result }
    ensures not_disks { IsOfDisks result → ⊥ }
    ensures wire { CountedWithin (result ≡ Status.Wire)
        (W.faults wire.old) (W.send_faults wire.old)
        (W.faults wire.new) (W.send_faults wire.new) }
    ensures output { Counted (result ≡ Status.WriteFault) (O.faults out.old) (O.faults out.new) }
{
    let mut room = Octets::new(alloc);
    'requests: for answered in 0..count {
        match come(wire, &mut room) {
            Ok(true) => {}
            Ok(false) => return end_requests(alloc, answered, out),
            Err(status) => return status,
        }
        match answer_one(alloc, answered + 1, core, room.as_slice(), wire, out) {
            Ok(()) => {}
            Err(status) => return status,
        }
    }
    end_requests(alloc, count, out)
}
