//! What a host says.
ghost use Rattle.std.specs.Prelude.{◌≡◌, ◌≤◌, List, ℕ, [], length, IsTrue, IfOk, OnOk};
ghost use Rattle.tungstenite.specs.Content.{text, binary};
ghost use Rattle.tungstenite.specs.Socket.{content_of};
ghost use Rattle.relay_io.specs.declared.feed.TheConstants.{LONGEST_FEED_MESSAGE};
ghost use Rattle.ws_edge.specs.declared.hearing.Heard.{Heard};

use crate::asking::Session;
use crate::fault::Fault;
use crate::limits::{MOST_SIGNS, PONG_SECONDS, QUIET_SECONDS};
use at_cid::Octets;
use relay_io::LONGEST_FEED_MESSAGE;
use std::io::{ErrorKind, Read, Write};
use std::net::OpenStream;
use std::random::RandomSource;
use std::time::Clock;
use tungstenite::{Bytes, Error, Message};
use websocket::error::ProtocolError;

// What a host was heard to say.
#[derive(Clone, Copy, Debug, PartialEq, Eq)]
enum Heard {
    // A message, which is in the room.
    Message,
    // A ping or a pong.
    Sign,
    // Its close.
    Close,
    // Nothing that is whole, in the time that was given.
    Nothing,
}

/// Puts the next message in the room, and is false where the host has closed. A host without a
/// message is sent a ping, and may be quiet for as long as it answers; but a message that had begun
/// before the last ping has to be whole when this one is answered.
pub(crate) fn next_message<S: Read + Write + OpenStream + Drop, R: RandomSource + Clock + Copy>(
    session: &mut Session<S, R>,
    room: &mut Octets,
) -> Result<bool, Fault>
    ensures within { IfOk result (λ more. IsTrue more → length room.new ≤ LONGEST_FEED_MESSAGE) }
{
    for _ in 0..u64::MAX {
        let in_message = session.get_ref().is_in_message();
        session.get_mut().below().give(QUIET_SECONDS);
        match listen(session, room, false)? {
            Heard::Message => return Ok(true),
            Heard::Close => return Ok(false),
            Heard::Sign | Heard::Nothing => {}
        }
        session.get_mut().below().give(PONG_SECONDS);
        ping(session)?;
        match listen(session, room, true)? {
            Heard::Message => return Ok(true),
            Heard::Close => return Ok(false),
            Heard::Sign if in_message => return Err(Fault::Slow),
            Heard::Sign => {}
            Heard::Nothing => return Err(Fault::Quiet),
        }
    }
    Err(Fault::Quiet)
}

// Waits for a message, and passes over pings and pongs, or takes the first of them for an answer.
fn listen<S: Read + Write + OpenStream + Drop, R: RandomSource + Clock + Copy>(
    session: &mut Session<S, R>,
    room: &mut Octets,
    sign_answers: bool,
) -> Result<Heard, Fault>
    ensures within { IfOk result
        (λ heard. heard ≡ Heard.Message → length room.new ≤ LONGEST_FEED_MESSAGE) }
{
    for _ in 0..MOST_SIGNS + 1 {
        let heard = hear(session, room)?;
        if heard != Heard::Sign || sign_answers {
            return Ok(heard);
        }
    }
    Err(Fault::ManySigns)
}

// Hears one thing.
fn hear<S: Read + Write + OpenStream + Drop, R: RandomSource + Clock + Copy>(
    session: &mut Session<S, R>,
    room: &mut Octets,
) -> Result<Heard, Fault>
    ensures within { IfOk result
        (λ heard. heard ≡ Heard.Message → length room.new ≤ LONGEST_FEED_MESSAGE) }
{
    match session.read() {
        Ok(Message::Close(_)) => {
            // It is answered, as far as the host still takes the answer.
            let _ = session.flush();
            Ok(Heard::Close)
        }
        Ok(message) => hand_on(&message, room),
        Err(Error::Io(e)) if e.kind() == ErrorKind::TimedOut => Ok(Heard::Nothing),
        Err(e) => Err(session.get_ref().refusal().unwrap_or(fault_of(e))),
    }
}

// Why the protocol gave nothing.
fn fault_of(error: Error) -> Fault {
    match error {
        Error::OutOfMemory => Fault::Memory,
        Error::Io(e) => e.into(),
        Error::Capacity(_) => Fault::LongMessage,
        Error::ConnectionClosed
        | Error::AlreadyClosed
        | Error::Protocol(ProtocolError::ResetWithoutClosingHandshake) => Fault::Closed,
        _ => Fault::Protocol,
    }
}

// Hands a message on: a binary one as its bytes, a text as no bytes.
fn hand_on(message: &Message, room: &mut Octets) -> Result<Heard, Fault>
    ensures bytes { (bytes : List ℕ) → content_of message.now ≡ binary bytes
        → OnOk result (room.new ≡ bytes) }
    ensures text { (words : List ℕ) → content_of message.now ≡ text words
        → OnOk result (room.new ≡ []) }
    ensures within { IfOk result
        (λ heard. heard ≡ Heard.Message → length room.new ≤ LONGEST_FEED_MESSAGE) }
{
    room.clear();
    match message {
        Message::Binary(bytes) => {
            if bytes.len() > LONGEST_FEED_MESSAGE {
                return Err(Fault::LongMessage);
            }
            room.extend(bytes.as_slice())?;
            Ok(Heard::Message)
        }
        Message::Text(_) => Ok(Heard::Message),
        Message::Ping(_) | Message::Pong(_) => Ok(Heard::Sign),
        Message::Close(_) => Ok(Heard::Close),
    }
}

// Asks a quiet host whether it is there.
fn ping<S: Read + Write + OpenStream + Drop, R: RandomSource + Clock + Copy>(
    session: &mut Session<S, R>,
) -> Result<(), Fault> {
    session.send(Message::Ping(Bytes::new())).map_err(fault_of)
}
