//! What a message of a stream is.

ghost use Rattle.std.specs.Prelude.{◌≡◌};
ghost use Rattle.at_event.specs.declared.frame.FrameFault.{FrameFault};

use crate::event::Event;
use at_cid::Memory;
use thiserror::Error;

/// What a message says.
#[derive(Debug, Drop)]
pub enum Frame {
    /// An event whose fields have their forms.
    Event(Event),
    /// An event of this number with a field that is missing or of another form.
    Faulty(u64),
    /// A remark of the host.
    Info,
    /// The host ends the stream.
    Error,
    /// A message of another kind.
    Unknown,
}

/// Why a message is no frame.
#[derive(Clone, Copy, Debug, PartialEq, Eq, Error)]
pub enum FrameFault {
    /// The message isn't a header and a payload.
    #[error("the message is no frame")]
    BadFrame,
    /// An event has no number from 0 to 2^53 - 1.
    #[error("the event has no number")]
    NoSeq,
    /// Memory ran out.
    #[error("out of memory")]
    Memory,
}

impl From<Memory> for FrameFault {
    ghost from_gives = { λ _ e. e ≡ FrameFault.Memory };

    fn from(_e: Memory) -> FrameFault {
        FrameFault::Memory
    }
}
