//! Taking the messages that a host gives.

ghost use Rattle.std.specs.Prelude.{◌≡◌, ◌≤◌, ◌<◌, ◌^◌, true, ℕ, List, Err, IfOk, IfErr, OnOk, OnErr, IsTrue};
ghost use Rattle.at_syntax.specs.Host.{is_host};
ghost use Rattle.gate_log.specs.Pick.{other_side};
ghost use Rattle.relay_row.specs.Folds.{cursor};
ghost use Rattle.relay_row.specs.declared.row.Row.{Row as TheRow};
ghost use Rattle.relay_store.specs.Store.{IsOf, seen_in};
ghost use Rattle.at_cid.specs.Counts.{Counted};
ghost use Rattle.run_base.specs.Place.{with_feed};
ghost use Rattle.take_run.specs.Ends.{FaultsTold, IsUnread, MayEndFollowing};
ghost use Rattle.take_run.specs.Feeds.{IsLeft};
ghost use Rattle.take_run.specs.Going.{IsNew, IsNext, IsReady, StreamTaken, at};

use crate::answering::finish;
use crate::batching::Batches;
use crate::run::Run;
use crate::stream::{OpenFeed, Stream};
use crate::tally::Tally;
use at_authority::Judges;
use at_cid::{Octets, Words, ghost_bytes};
use relay_disk::Disk;
use relay_io::{Clock, Feed, FeedFault, Repos, Sink};
use run_base::{Outside, Seen, Status};
use std::alloc::Global;
use store_take::Message;

// The next message of a host, unless the host has ended or there are no more.
fn read_next<S: Stream>(
    alloc: Global,
    host: &str,
    tally: &Tally,
    stream: &mut S,
) -> Result<Option<Message>, Status>
    requires host { is_host host.now ≡ true }
    requires ready { S.ready stream.old }
    ensures next { IfOk result (λ next. IsNext host.now tally.now.ended.items next
        (S.leaves stream.old) (S.leaves stream.new)) }
    ensures unread { IfErr result IsUnread }
    ensures ready { OnOk result (S.ready stream.new) }
    ensures kept { OnErr result
        ((given : List (List ℕ)) → S.leaves stream.old given → S.leaves stream.new given) }
    ensures counts { Counted (result ≡ Err Status.Feed)
        (S.faults stream.old) (S.faults stream.new) }
    ensures later { S.later stream.old stream.new }
{
    if tally.has_ended(host) {
        return Ok(None);
    }
    let Ok(name) = Words::from_str(alloc, host) else {
        return Err(Status::Memory);
    };
    let mut bytes = Octets::new(alloc);
    match stream.next_message(&mut bytes) {
        Ok(true) => {
            ghost_bytes(bytes.as_slice());
            Ok(Some(Message { host: name, bytes }))
        }
        Ok(false) => Ok(None),
        Err(FeedFault::Failed) => Err(Status::Feed),
        Err(FeedFault::Memory) => Err(Status::Memory),
    }
}

/// What hosts give, taken in one run.
pub trait Streams: Seen {
    /// Takes the messages of a stream one by one, at most `count` and none after the end of their host, and writes the report: a line
    /// for each message once its row is durable, and one more where it is done.
    fn take_stream<S: Stream>(
        &mut self,
        alloc: Global,
        run: &mut Run,
        host: &str,
        count: u64,
        stream: &mut S,
    ) -> Status
        requires ready { IsReady Self.tells (at run.old (Self.place self.old)) }
        requires new { IsNew run.old.tally }
        requires host { is_host host.now ≡ true }
        requires count { count < 2 ^ 63 }
        requires stream_ready { S.ready stream.old }
        ensures taken { (J : List TheRow) → IsOf J run.old.store.core
            → StreamTaken Self.tells host.now count J (at run.old (Self.place self.old))
            (at run.new (Self.place self.new))
            (S.leaves stream.old) (S.leaves stream.new) result }
        ensures may { MayEndFollowing result }
        ensures faults { FaultsTold ⊥ (with_feed (S.faults stream.old) (Self.place self.old))
            (with_feed (S.faults stream.new) (Self.place self.new)) result }
        ensures side { (seen_in run.new.store).side ≡ (seen_in run.old.store).side }
        ensures beside { Self.rests (other_side (seen_in run.old.store).side) self.old self.new }
        ensures later { Self.later self.old self.new }
        ensures stream { S.later stream.old stream.new }
        ensures counts { S.faults stream.old ≤ S.faults stream.new };

    /// Opens the stream of a host after its cursor, and takes it.
    fn take_feed<F: Feed>(
        &mut self,
        alloc: Global,
        run: &mut Run,
        host: &str,
        count: u64,
        feed: &mut F,
    ) -> Status
        requires ready { IsReady Self.tells (at run.old (Self.place self.old)) }
        requires new { IsNew run.old.tally }
        requires host { is_host host.now ≡ true }
        requires count { count < 2 ^ 63 }
        ensures taken { (J : List TheRow) → IsOf J run.old.store.core
            → StreamTaken Self.tells host.now count J (at run.old (Self.place self.old))
            (at run.new (Self.place self.new))
            (λ all. IsTrue F.tells × (all ≡ F.behind feed.old host.now (cursor host.now J)))
            (IsLeft result (F.left feed.new)) result }
        ensures may { MayEndFollowing result }
        ensures faults { FaultsTold ⊥ (with_feed (F.faults feed.old) (Self.place self.old))
            (with_feed (F.faults feed.new) (Self.place self.new)) result }
        ensures side { (seen_in run.new.store).side ≡ (seen_in run.old.store).side }
        ensures beside { Self.rests (other_side (seen_in run.old.store).side) self.old self.new }
        ensures later { Self.later self.old self.new }
        ensures counts { F.faults feed.old ≤ F.faults feed.new };
}

impl<D: Disk, P: Judges, R: Repos, C: Clock, O: Sink> Streams
    for Outside<'_, '_, '_, '_, '_, '_, D, P, R, C, O> {
    fn take_stream<S: Stream>(
        &mut self,
        alloc: Global,
        run: &mut Run,
        host: &str,
        count: u64,
        stream: &mut S,
    ) -> Status {
        'messages: for _ in 0..count {
            let message = match read_next(alloc, host, &run.tally, stream) {
                Ok(Some(message)) => message,
                Ok(None) => return finish(alloc, run.store.last_seq(), &run.tally, self.out),
                Err(status) => return status,
            };
            let group = [message];
            match self.take_group(alloc, run, &group) {
                Ok(()) => {}
                Err(status) => return status,
            }
        }
        finish(alloc, run.store.last_seq(), &run.tally, self.out)
    }

    fn take_feed<F: Feed>(
        &mut self,
        alloc: Global,
        run: &mut Run,
        host: &str,
        count: u64,
        feed: &mut F,
    ) -> Status {
        match feed.open(host, run.store.core().cursor(host)) {
            Ok(()) => {}
            Err(_) => return Status::Feed,
        }
        let mut stream = OpenFeed { feed };
        self.take_stream(alloc, run, host, count, &mut stream)
    }
}
