//! One request, its reply and its line.

ghost use Rattle.std.specs.Prelude.{◌≡◌, ◌≤◌, List, Err, IfErr};
ghost use Rattle.relay_row.specs.declared.row.Row.{Row as TheRow};
ghost use Rattle.relay_core.specs.Entries.{Holds};
ghost use Rattle.at_cid.specs.Counts.{Counted};
ghost use Rattle.read_run.specs.AtWire.{at_wire};
ghost use Rattle.run_base.specs.Ends.{IsUnwritten};
ghost use Rattle.read_run.specs.Queried.{Answered};
ghost use Rattle.read_run.specs.Rounds.{status_code_in};

use crate::request::write_request;
use relay_core::Core;
use relay_io::{Failed, Sink, Wire};
use relay_query::answer;
use run_base::Status;
use std::alloc::Global;

// The three digits of the code of a reply.
fn code_of(reply: &[u8]) -> &[u8]
    ensures { result.now ≡ status_code_in reply.now }
{
    let front = &reply[..reply.len().min(12)];
    &front[front.len().min(9)..]
}

/// Answers the request that came, and writes its line.
///
/// The line of the request with the number I, from 1, is `query I` and the code of the reply, or
/// `query I failed` where the reply couldn't be sent, which is no fault: the next request is
/// answered.
pub(crate) fn answer_one<W: Wire, O: Sink>(
    alloc: Global,
    number: u64,
    core: &Core,
    request: &[u8],
    wire: &mut W,
    out: &mut O,
) -> Result<(), Status>
    ensures answered { (J : List TheRow) → Holds core.now J
        → Answered W.tells O.tells J number request.now
        (at_wire (W.requests wire.old) (W.exchanges wire.old) (W.send_faults wire.old))
        (at_wire (W.requests wire.new) (W.exchanges wire.new) (W.send_faults wire.new))
        (O.written out.old) (O.written out.new) result }
    ensures few { IfErr result IsUnwritten }
    ensures output { Counted (result ≡ Err Status.WriteFault)
        (O.faults out.old) (O.faults out.new) }
    ensures wire { W.faults wire.new ≡ W.faults wire.old }
    ensures sends { W.send_faults wire.old ≤ W.send_faults wire.new }
{
    let reply = match answer(alloc, core, request) {
        Ok(reply) => reply,
        Err(_) => return Err(Status::Memory),
    };
    match wire.send(reply.as_slice()) {
        Ok(()) => write_request(alloc, number, code_of(reply.as_slice()), out),
        Err(Failed) => write_request(alloc, number, b"failed", out),
    }
}
