//! Connections that come in at a port of this machine.

use crate::fault::Fault;
use crate::limits::{ACCEPT_PAUSE_MILLISECONDS, MOST_ACCEPTS};
use std::io::ErrorKind;
use std::net::{Ipv4Addr, Net, OpenListener, SocketAddr};
use std::time::{Clock, Duration};

/// The next connection at a port of 127.0.0.1, which is opened where it isn't yet, or `None` where
/// the connection went away before it was taken.
pub(crate) fn next_connection<R: Net + Clock>(
    rt: &R,
    port: u16,
    listener: &mut Option<R::Listener>,
) -> Result<Option<R::Stream>, Fault> {
    if listener.is_none() {
        *listener = Some(rt.bind(SocketAddr::from((Ipv4Addr::LOCALHOST, port)))?);
    }
    match listener {
        Some(listener) => accept(rt, listener),
        None => Err(Fault::Closed),
    }
}

// Takes the next connection. The listener is a good one, so an error speaks of the network, of the
// connection that was to be taken, or of a want that passes, such as that of descriptors: after a
// pause it is tried again.
fn accept<C: Clock, L: OpenListener>(clock: &C, listener: &L) -> Result<Option<L::Stream>, Fault> {
    let mut fault = Fault::Late;
    for _ in 0..MOST_ACCEPTS {
        match listener.accept() {
            Ok((stream, _)) => return Ok(Some(stream)),
            Err(e) if e.kind() == ErrorKind::ConnectionAborted => return Ok(None),
            Err(e) => fault = e.into(),
        }
        clock.sleep(Duration::from_millis(ACCEPT_PAUSE_MILLISECONDS));
    }
    Err(fault)
}
