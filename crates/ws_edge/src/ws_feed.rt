//! The feed over WebSockets.
ghost use Rattle.std.specs.Prelude.{◌≡◌, [], false};

use crate::asking::{Session, ask};
use crate::fault::Fault;
use crate::hearing::next_message;
use at_cid::Octets;
use relay_io::{Failed, Feed, FeedFault};
use std::alloc::Global;
use std::net::Net;
use std::random::RandomSource;
use std::time::Clock;

/// The streams of hosts on this machine. A host is `localhost:PORT` or `127.0.0.1:PORT`, and any
/// other is a fault. A binary message is handed on, and a text as a message of no bytes. A host's
/// close is the end; a connection that ends otherwise is a fault, and so is a host that is quiet and
/// doesn't answer a ping. After the end and after a fault no stream is open.
#[derive(Drop)]
pub struct WsFeed<R: Net + Clock + RandomSource + Copy> {
    alloc: Global,
    rt: R,
    session: Option<Session<R::Stream, R>>,
    faults: u64,
    fault: Option<Fault>,
}

impl<R: Net + Clock + RandomSource + Copy> WsFeed<R> {
    /// A feed of which no stream is open.
    pub fn new(alloc: Global, rt: R) -> WsFeed<R>
        ensures faults { result.faults ≡ 0 }
    {
        WsFeed {
            alloc,
            rt,
            session: None,
            faults: 0,
            fault: None,
        }
    }

    /// Why the last call that failed did.
    pub fn fault(&self) -> Option<Fault> {
        self.fault
    }
}

impl<R: Net + Clock + RandomSource + Copy> Feed for WsFeed<R> {
    ghost tells = { false };

    ghost behind = { λ _ _ _. [] };

    ghost left = { λ _. [] };

    ghost faults = { λ feed. feed.faults };

    fn open(&mut self, host: &str, cursor: u64) -> Result<(), Failed> {
        self.session = None;
        match ask(self.alloc, self.rt, host, cursor) {
            Ok(session) => {
                self.session = Some(session);
                Ok(())
            }
            Err(fault) => {
                self.faults = self.faults.saturating_add(1);
                self.fault = Some(fault);
                Err(Failed)
            }
        }
    }

    fn next(&mut self, room: &mut Octets) -> Result<bool, FeedFault> {
        let Some(session) = &mut self.session else {
            return Ok(false);
        };
        let came = next_message(session, room);
        if !matches!(came, Ok(true)) {
            self.session = None;
        }
        match came {
            Ok(more) => Ok(more),
            Err(Fault::Memory) => Err(FeedFault::Memory),
            Err(fault) => {
                self.faults = self.faults.saturating_add(1);
                self.fault = Some(fault);
                Err(FeedFault::Failed)
            }
        }
    }
}
