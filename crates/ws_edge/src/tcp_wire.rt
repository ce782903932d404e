//! The wire over TCP.
ghost use Rattle.std.specs.Prelude.{◌≡◌, [], false};

use crate::connection::next_connection;
use crate::fault::Fault;
use crate::leaving::{read_on, send_last};
use crate::limits::{BEHIND_SECONDS, REPLY_SECONDS, REQUEST_SECONDS};
use crate::requests::read_request;
use crate::timed::Timed;
use at_cid::Octets;
use relay_io::{Failed, Wire, WireFault};
use std::net::Net;
use std::time::Clock;

/// The port at which requests come in.
pub const WIRE_PORT: u16 = 2471;

/// A wire on a port of 127.0.0.1, which opens at the first call of `next`. A connection has one
/// request: its bytes up to and with the first empty line, at most `LONGEST_REQUEST` of them, or
/// what came in time, be it nothing. A connection that went away before it was taken counts as a
/// request of no bytes, of which `send` fails. No call says that no more will come.
#[derive(Drop)]
pub struct TcpWire<R: Net + Clock + Copy> {
    rt: R,
    port: u16,
    listener: Option<R::Listener>,
    // The connection whose request waits for its reply.
    waiting: Option<Timed<R::Stream, R>>,
    faults: u64,
    send_faults: u64,
    fault: Option<Fault>,
}

impl<R: Net + Clock + Copy> TcpWire<R> {
    /// A wire that isn't open yet.
    pub fn new(rt: R, port: u16) -> TcpWire<R>
        ensures faults { result.faults ≡ 0 }
        ensures send_faults { result.send_faults ≡ 0 }
    {
        TcpWire {
            rt,
            port,
            listener: None,
            waiting: None,
            faults: 0,
            send_faults: 0,
            fault: None,
        }
    }

    /// Why the last call of `next` that failed did.
    pub fn fault(&self) -> Option<Fault> {
        self.fault
    }
}

impl<R: Net + Clock + Copy> Wire for TcpWire<R> {
    ghost tells = { false };

    ghost requests = { λ _. [] };

    ghost exchanges = { λ _. [] };

    ghost faults = { λ wire. wire.faults };

    ghost send_faults = { λ wire. wire.send_faults };

    fn next(&mut self, room: &mut Octets) -> Result<bool, WireFault> {
        self.waiting = None;
        let stream = match next_connection(&self.rt, self.port, &mut self.listener) {
            Ok(stream) => stream,
            Err(fault) => {
                self.faults = self.faults.saturating_add(1);
                self.fault = Some(fault);
                return Err(WireFault::Failed);
            }
        };
        let Some(stream) = stream else {
            room.clear();
            return Ok(true);
        };
        let mut stream = Timed::new(stream, self.rt);
        stream.give(REQUEST_SECONDS);
        read_request(&mut stream, room)?;
        self.waiting = Some(stream);
        Ok(true)
    }

    /// Where the system took the whole reply, nobody can tell whether it was read.
    fn send(&mut self, reply: &[u8]) -> Result<(), Failed> {
        if let Some(mut stream) = self.waiting.take() {
            stream.give(REPLY_SECONDS);
            if send_last(&mut stream, reply) {
                stream.give(BEHIND_SECONDS);
                read_on(&mut stream);
                return Ok(());
            }
        }
        self.send_faults = self.send_faults.saturating_add(1);
        Err(Failed)
    }
}
