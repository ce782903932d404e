//! The command that mirrors a stream.

ghost use Rattle.std.specs.Prelude.{◌≡◌, ◌<◌, ◌^◌};
ghost use Rattle.mirror_run.specs.Ends.{MayEndMirroring};
ghost use Rattle.mirror_run.specs.Mirrored.{Mirrored};
ghost use Rattle.at_cid.specs.Counts.{Counted};

use crate::printing::write_text;
use crate::taking::take_stream;
use relay_io::{Repos, Sink, Source};
use run_base::Status;
use std::alloc::Global;

/// Takes the messages of a stream, each after its length in four bytes, the highest first, and at most
/// 8,388,608 bytes long, into a mirror, which fetches the repositories that its `#sync` events name. At
/// the end of the stream it writes a line for each account, in ascending order of their DIDs, and a last
/// one with the number of events. Of the input at most `limit` bytes are taken.
pub fn mirror<I: Source, R: Repos, O: Sink>(
    alloc: Global,
    limit: u64,
    input: &mut I,
    repos: &mut R,
    out: &mut O,
) -> Status
    requires limit { limit < 2 ^ 63 }
    ensures mirrored { Mirrored I.tells O.tells R.tells limit (R.repository repos.old)
        (I.left input.old) (O.written out.old) (O.written out.new) result }
    ensures may { MayEndMirroring result }
    ensures input { Counted (result ≡ Status.ReadFault)
        (I.faults input.old) (I.faults input.new) }
    ensures repos { Counted (result ≡ Status.Repos) (R.faults repos.old) (R.faults repos.new) }
    ensures out { Counted (result ≡ Status.WriteFault) (O.faults out.old) (O.faults out.new) }
{
    match take_stream(alloc, limit, input, repos) {
        Ok(taken) => write_text(alloc, &taken.mirror, taken.events, out),
        Err(status) => status,
    }
}
