//! What comes of a message.

ghost use Rattle.std.specs.Prelude.{◌≡◌, Ok};
ghost use Rattle.relay_step.specs.Messages.{skipped_as};

use at_event::Frame;
use relay_row::NewRow;

/// Why a message makes no row.
#[derive(Clone, Copy, Debug, PartialEq, Eq)]
pub enum Skipped {
    /// It doesn't stand above the cursor of its host; its number.
    Old(u64),
    /// It is of a kind that the relay doesn't know.
    Unknown,
    /// It is a remark of the host.
    Info,
    /// It is no frame, which ends the host.
    BadFrame,
    /// It is an event without a number, which ends the host.
    NoSeq,
    /// It is an error, which ends the host.
    Error,
}

/// Why a frame that makes no row makes none.
pub(crate) fn skip(frame: &Frame) -> Skipped
    ensures { result ≡ skipped_as (Ok frame.now) }
{
    match frame {
        Frame::Event(event) => Skipped::Old(event.seq),
        Frame::Faulty(seq) => Skipped::Old(*seq),
        Frame::Info => Skipped::Info,
        Frame::Unknown => Skipped::Unknown,
        Frame::Error => Skipped::Error,
    }
}

/// What comes of a message.
#[derive(Debug, Drop)]
pub enum Decided {
    /// It makes no row.
    Skipped(Skipped),
    /// It makes this row, whose message isn't encoded yet.
    Recorded(NewRow),
}
