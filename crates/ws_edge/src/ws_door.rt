//! The door over WebSockets.
ghost use Rattle.std.specs.Prelude.{◌≡◌, [], false, is_some};

use crate::connection::next_connection;
use crate::fault::Fault;
use crate::limits::WRITE_SIZE;
use crate::serving::{Session, close_with, hear, send_to};
use crate::welcome::welcome;
use relay_io::{Door, DoorFault, Failed, Guest};
use std::alloc::Global;
use std::net::Net;
use std::time::Clock;

/// The port at which consumers come in.
pub const DOOR_PORT: u16 = 2470;

/// A door on a port of 127.0.0.1, which opens at the first call of `next`. A guest whose connection
/// goes away before the handshake is whole, or who is refused, is one without a handshake. No call
/// says that no more will come.
#[derive(Drop)]
pub struct WsDoor<R: Net + Clock + Copy> {
    alloc: Global,
    rt: R,
    port: u16,
    listener: Option<R::Listener>,
    guest: Option<Session<R::Stream, R>>,
    // The bytes that were handed over since the last look at what the guest says.
    unseen: usize,
    faults: u64,
    session_faults: u64,
    fault: Option<Fault>,
}

impl<R: Net + Clock + Copy> WsDoor<R> {
    /// A door that isn't open yet.
    pub fn new(alloc: Global, rt: R, port: u16) -> WsDoor<R>
        ensures waits { is_some result.guest ≡ false }
        ensures faults { result.faults ≡ 0 }
        ensures session_faults { result.session_faults ≡ 0 }
    {
        WsDoor {
            alloc,
            rt,
            port,
            listener: None,
            guest: None,
            unseen: 0,
            faults: 0,
            session_faults: 0,
            fault: None,
        }
    }

    /// Why the last call of `next` that failed did.
    pub fn fault(&self) -> Option<Fault> {
        self.fault
    }
}

impl<R: Net + Clock + Copy> Door for WsDoor<R> {
    ghost tells = { false };

    ghost guests = { λ _. [] };

    ghost turns = { λ _. [] };

    ghost waits = { λ door. is_some door.guest };

    ghost faults = { λ door. door.faults };

    ghost session_faults = { λ door. door.session_faults };

    fn next(&mut self) -> Result<Guest, DoorFault> {
        self.guest = None;
        self.unseen = 0;
        let stream = match next_connection(&self.rt, self.port, &mut self.listener) {
            Ok(Some(stream)) => stream,
            Ok(None) => return Ok(Guest::NoHandshake),
            Err(fault) => {
                self.faults = self.faults.saturating_add(1);
                self.fault = Some(fault);
                return Err(DoorFault::Failed);
            }
        };
        match welcome(self.alloc, stream, self.rt) {
            Ok((target, session)) => {
                self.guest = Some(session);
                Ok(Guest::Target(target))
            }
            Err(Fault::Memory) => Err(DoorFault::Memory),
            Err(_) => Ok(Guest::NoHandshake),
        }
    }

    /// A message that is handed over may leave with later ones, or with the close.
    fn send(&mut self, message: &[u8]) -> Result<(), DoorFault> {
        let Some(session) = &mut self.guest else {
            return Ok(());
        };
        let mut sent = send_to(self.alloc, session, message);
        self.unseen = self.unseen.saturating_add(message.len());
        if self.unseen >= WRITE_SIZE && sent.is_ok() {
            self.unseen = 0;
            sent = hear(session);
        }
        if let Err(DoorFault::Failed) = sent {
            self.guest = None;
            self.session_faults = self.session_faults.saturating_add(1);
        }
        sent
    }

    fn close(&mut self) -> Result<(), Failed> {
        let Some(mut session) = self.guest.take() else {
            return Ok(());
        };
        if close_with(&mut session) {
            return Ok(());
        }
        self.session_faults = self.session_faults.saturating_add(1);
        Err(Failed)
    }
}
