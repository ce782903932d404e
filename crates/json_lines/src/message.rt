//! The lines of a message.

ghost use Rattle.std.specs.Prelude.{◌≡◌, ◌++◌, OnOk, OnErr, option_map};
ghost use Rattle.at_event.specs.Frames.{frame_of};
ghost use Rattle.json_lines.specs.Lines.{lines_read};

use crate::writing::lines;
use at_cid::{Memory, Octets};
use at_event::{Frame, FrameFault, read_frame};
use std::alloc::Global;

/// Appends the lines of a message of a stream, as [`lines`] does those of its event. A message that
/// isn't one of the events that a relay knows has no lines. An error says that there was no memory,
/// and nothing was appended then.
pub fn message_lines(
    alloc: Global,
    message: &[u8],
    collection: Option<&str>,
    out: &mut Octets,
) -> Result<(), Memory>
    ensures added { OnOk result (out.new ≡ out.old
        ++ lines_read (option_map (λ text. text.now) collection.entry) (frame_of message.now)) }
    ensures kept { OnErr result (out.new ≡ out.old) }
{
    match read_frame(alloc, message) {
        Ok(Frame::Event(event)) => lines(alloc, &event, collection, out),
        Ok(Frame::Faulty(_) | Frame::Info | Frame::Error | Frame::Unknown) => Ok(()),
        Err(FrameFault::BadFrame | FrameFault::NoSeq) => Ok(()),
        Err(FrameFault::Memory) => Err(Memory),
    }
}
