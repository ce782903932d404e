//! Why a call of the edge gave no answer, in words for whoever runs the relay.

use crate::limits::{
    LONGEST_HEAD, MOST_EMPTY_FRAMES, MOST_FIELDS, MOST_FRAMES, MOST_SIGNS, PONG_SECONDS,
};
use at_cid::Memory;
use relay_io::LONGEST_FEED_MESSAGE;
use std::alloc::{AllocError, AllocFailed};
use std::error::Error;
use std::io::ErrorKind;
use std::{fmt, io};
use websocket::handshake::HandshakeError;

/// Why a call gave no answer. Its text is a part of a sentence, to be written after the name of the
/// host or of the port.
#[derive(Clone, Copy, Debug, PartialEq, Eq)]
pub enum Fault {
    /// The host isn't on this machine.
    Elsewhere,
    /// The port of the host isn't a number of a port.
    Port,
    /// The system failed, with this number of an error.
    System(i32),
    /// What was waited for didn't come in time.
    Late,
    /// The connection ended, and no close had come.
    Closed,
    /// The host answered with this status of HTTP in place of a WebSocket.
    Status(u16),
    /// A head isn't one of a handshake.
    Handshake,
    /// The method of a guest's request isn't GET.
    Method,
    /// A head asks for, or accepts, no WebSocket of version 13.
    NoUpgrade,
    /// A head is too long.
    LongHead,
    /// The host is silent.
    Quiet,
    /// A message had begun, and wasn't whole in time.
    Slow,
    /// A message is too long.
    LongMessage,
    /// A message has too many frames.
    ManyFrames,
    /// Too many pings and pongs came without a message.
    ManySigns,
    /// The other side broke the protocol of WebSockets.
    Protocol,
    /// Memory ran out.
    Memory,
}

impl fmt::Display for Fault {
    fn fmt<W: fmt::Write>(&self, f: &mut fmt::Formatter<W>) -> fmt::Result {
        match *self {
            Fault::Elsewhere => write!(
                f,
                "only hosts on this machine can be followed, as localhost:PORT or 127.0.0.1:PORT"
            ),
            Fault::Port => write!(f, "the port has to be a number from 1 to 65535"),
            Fault::System(code) => {
                let error = io::Error::from_raw_os_error(code);
                write!(f, "{error}")
            }
            Fault::Late => write!(f, "no answer came in time"),
            Fault::Closed => write!(f, "the connection ended without a close"),
            Fault::Status(status) => write!(f, "the host answered {status}"),
            Fault::Handshake => write!(f, "the answer is no handshake of a WebSocket"),
            Fault::Method => write!(f, "the method of the request is not GET"),
            Fault::NoUpgrade => write!(f, "there is no upgrade to a WebSocket of version 13"),
            Fault::LongHead => write!(
                f,
                "the answer has a head of more than {LONGEST_HEAD} bytes or {MOST_FIELDS} fields"
            ),
            Fault::Quiet => write!(
                f,
                "the host was sent a ping, and nothing whole came for {PONG_SECONDS} seconds"
            ),
            Fault::Slow => write!(f, "a message was begun and was not whole in time"),
            Fault::LongMessage => write!(f, "a message has more than {LONGEST_FEED_MESSAGE} bytes"),
            Fault::ManyFrames => write!(
                f,
                "a message has more than {MOST_FRAMES} frames, or more than {MOST_EMPTY_FRAMES} empty ones"
            ),
            Fault::ManySigns => write!(
                f,
                "more than {MOST_SIGNS} pings and pongs came without a message"
            ),
            Fault::Protocol => write!(f, "the host broke the protocol of WebSockets"),
            Fault::Memory => write!(f, "out of memory"),
        }
    }
}

impl Error for Fault {}

impl From<Memory> for Fault {
    fn from(_e: Memory) -> Fault {
        Fault::Memory
    }
}

impl From<AllocError> for Fault {
    fn from(_e: AllocError) -> Fault {
        Fault::Memory
    }
}

impl<T: Drop> From<AllocFailed<T>> for Fault {
    fn from(_e: AllocFailed<T>) -> Fault {
        Fault::Memory
    }
}

impl From<io::Error> for Fault {
    fn from(e: io::Error) -> Fault {
        match e.raw_os_error() {
            Some(code) => Fault::System(code),
            None if e.kind() == ErrorKind::TimedOut => Fault::Late,
            None => Fault::Closed,
        }
    }
}

impl From<httparse::Error> for Fault {
    fn from(e: httparse::Error) -> Fault {
        match e {
            httparse::Error::TooManyHeaders => Fault::LongHead,
            _ => Fault::Handshake,
        }
    }
}

impl From<HandshakeError> for Fault {
    fn from(e: HandshakeError) -> Fault {
        match e {
            HandshakeError::OutOfMemory => Fault::Memory,
            HandshakeError::Http(status) => Fault::Status(status),
            HandshakeError::WrongHttpMethod => Fault::Method,
            HandshakeError::MissingConnectionUpgradeHeader
            | HandshakeError::MissingUpgradeWebSocketHeader
            | HandshakeError::MissingSecWebSocketVersionHeader => Fault::NoUpgrade,
            _ => Fault::Handshake,
        }
    }
}
