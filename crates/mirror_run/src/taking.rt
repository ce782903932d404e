//! Taking a whole stream into a mirror.

ghost use Rattle.std.specs.Prelude.{◌≡◌, ◌<◌, ◌^◌, ℕ, List, IsTrue, IfOk, IfErr, Err};
ghost use Rattle.mirror_run.specs.Taking.{HasStopped, HasTakenAll, IsEarly};
ghost use Rattle.at_cid.specs.Counts.{Counted};

use crate::end::{of_message, of_stream};
use crate::reader::MessageReader;
use mirror::Mirror;
use relay_io::{Repos, Source};
use run_base::Status;
use std::alloc::Global;

/// What a stream came to.
#[derive(Drop)]
pub(crate) struct Taken {
    pub(crate) mirror: Mirror,
    /// How many events there were.
    pub(crate) events: u64,
}

/// Takes the messages of a stream, at most `limit` bytes of it, up to its end.
pub(crate) fn take_stream<I: Source, R: Repos>(
    alloc: Global,
    limit: u64,
    input: &mut I,
    repos: &mut R,
) -> Result<Taken, Status>
    requires { limit < 2 ^ 63 }
    ensures taken { IfOk result (λ t. HasTakenAll I.tells R.tells (R.repository repos.old)
        (I.left input.old) t.mirror t.events) }
    ensures stopped { IfErr result (HasStopped I.tells R.tells (R.repository repos.old) limit
        (I.left input.old)) }
    ensures early { IfErr result IsEarly }
    ensures repositories { IsTrue R.tells → (did : List ℕ)
        → R.repository repos.new did ≡ R.repository repos.old did }
    ensures input { Counted (result ≡ Err Status.ReadFault)
        (I.faults input.old) (I.faults input.new) }
    ensures repos { Counted (result ≡ Err Status.Repos)
        (R.faults repos.old) (R.faults repos.new) }
{
    let mut reader = MessageReader::new(alloc, limit);
    let mut mirror = Mirror::new(alloc);
    let mut events = 0;
    'messages: loop {
        let place = reader.place();
        let message = match reader.next(input) {
            Ok(Some(message)) => message,
            Ok(None) => return Ok(Taken { mirror, events }),
            Err(fault) => return Err(of_stream(fault, place)),
        };
        let last = mirror.last_seq();
        match mirror.take(message.as_slice(), repos) {
            Ok(_) => {}
            Err(fault) => return Err(of_message(fault, place)),
        }
        if last < mirror.last_seq() {
            events += 1;
        }
    }
}
