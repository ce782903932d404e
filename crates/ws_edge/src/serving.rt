//! A session with a guest.

use crate::framed::Framed;
use crate::limits::{CLOSE_SECONDS, MOST_WORDS, SESSION_SECONDS};
use crate::timed::Timed;
use relay_io::DoorFault;
use std::alloc::Global;
use std::io::{ErrorKind, Read, Write};
use std::net::OpenStream;
use std::time::Clock;
use tungstenite::{CloseCode, CloseFrame, Error, Message, NoMask, Utf8Bytes, WebSocket};
use websocket::error::ProtocolError;

/// A session with a guest.
pub(crate) type Session<S, C> = WebSocket<Framed<Timed<S, C>>, NoMask>;

/// Hands a message over. Messages leave together, so that one write carries many.
pub(crate) fn send_to<S: Read + Write + OpenStream + Drop, C: Clock + Copy>(
    alloc: Global,
    session: &mut Session<S, C>,
    message: &[u8],
) -> Result<(), DoorFault> {
    session
        .get_mut()
        .below()
        .earn(message.len(), SESSION_SECONDS);
    let Ok(message) = Message::binary(alloc, message) else {
        return Err(DoorFault::Memory);
    };
    match session.write(message) {
        Ok(()) => Ok(()),
        Err(Error::OutOfMemory) => Err(DoorFault::Memory),
        Err(_) => Err(DoorFault::Failed),
    }
}

/// Reads what the guest has said, as far as one look goes, and answers its pings. A guest whose
/// close or whose end has come takes nothing more.
pub(crate) fn hear<S: Read + Write + OpenStream + Drop, C: Clock + Copy>(
    session: &mut Session<S, C>,
) -> Result<(), DoorFault> {
    if session.get_mut().below().begin_looking().is_err() {
        return Err(DoorFault::Failed);
    }
    let heard = hear_words(session);
    if session.get_mut().below().end_looking().is_err() {
        return Err(DoorFault::Failed);
    }
    heard
}

fn hear_words<S: Read + Write + OpenStream + Drop, C: Clock + Copy>(
    session: &mut Session<S, C>,
) -> Result<(), DoorFault> {
    for _ in 0..MOST_WORDS {
        match session.read() {
            Ok(Message::Close(_)) => {
                // It is answered, as far as the guest still takes the answer.
                let _ = session.flush();
                return Err(DoorFault::Failed);
            }
            Ok(_) => {}
            Err(Error::Io(e)) => {
                return if e.kind() == ErrorKind::WouldBlock {
                    Ok(())
                } else {
                    Err(DoorFault::Failed)
                };
            }
            Err(Error::OutOfMemory) => return Err(DoorFault::Memory),
            Err(_) => return Err(DoorFault::Failed),
        }
    }
    Ok(())
}

/// Ends a session. True exactly where the close left and the guest closed in time, with a close of
/// its own or without.
pub(crate) fn close_with<S: Read + Write + OpenStream + Drop, C: Clock + Copy>(
    session: &mut Session<S, C>,
) -> bool {
    let frame = CloseFrame {
        code: CloseCode::Normal,
        reason: Utf8Bytes::from_static(""),
    };
    session.get_mut().below().give(CLOSE_SECONDS);
    session.close(Some(frame)).is_ok() && closes(session)
}

// Reads on until the guest has closed.
fn closes<S: Read + Write + OpenStream + Drop, C: Clock + Copy>(
    session: &mut Session<S, C>,
) -> bool {
    for _ in 0..MOST_WORDS {
        match session.read() {
            Ok(_) => {}
            Err(Error::ConnectionClosed)
            | Err(Error::Protocol(ProtocolError::ResetWithoutClosingHandshake)) => return true,
            Err(_) => return false,
        }
    }
    false
}
