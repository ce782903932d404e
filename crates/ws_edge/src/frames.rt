//! The headers of the frames that come from a host or a guest.
ghost use Rattle.std.specs.Prelude.{◌≡◌, ◌+◌, ◌≤◌, ◌<◌, length, IsOk, OnOk};
ghost use Rattle.websocket.specs.declared.protocol.frame.coding.Data.{Data};
ghost use Rattle.websocket.specs.declared.protocol.frame.coding.OpCode.{OpCode};
ghost use Rattle.ws_edge.specs.declared.limits.TheConstants.{MOST_FRAMES, MOST_EMPTY_FRAMES};

use crate::fault::Fault;
use crate::limits::{LONGEST_SIGN, MOST_EMPTY_FRAMES, MOST_FRAMES};
use websocket::protocol::frame::FrameHeader;
use websocket::protocol::frame::coding::{Data, OpCode};

/// Where a stream of frames stands. A frame says in its header how long it is, and a message may
/// come in many: the header that would make a message too long, or give it too many frames, is found
/// here, before any byte of that frame is kept.
#[derive(Drop)]
pub(crate) struct Frames {
    // The most bytes of a message.
    longest: u64,
    // The front of a header that isn't whole, and how many bytes of it have come.
    header: [u8; FrameHeader::MAX_SIZE],
    held: usize,
    // How many bytes of the last frame are still to come.
    ahead: usize,
    // How long the message is so far, how many frames it has, and how many of these are empty.
    message: u64,
    frames: u64,
    empty_frames: u64,
    // Whether the message has a frame that is still to come.
    in_message: bool,
    refusal: Option<Fault>,
}

impl Frames {
    /// The beginning of a stream whose messages have at most this many bytes.
    pub(crate) fn new(longest: usize) -> Frames {
        Frames {
            longest: longest as u64,
            header: [0; FrameHeader::MAX_SIZE],
            held: 0,
            ahead: 0,
            message: 0,
            frames: 0,
            empty_frames: 0,
            in_message: false,
            refusal: None,
        }
    }

    /// Why a header was refused, if one was.
    pub(crate) fn refusal(&self) -> Option<Fault> {
        self.refusal
    }

    /// Whether a message in several frames has begun whose last frame hasn't come.
    pub(crate) fn is_in_message(&self) -> bool {
        self.in_message
    }

    /// Takes note of the bytes that come next, and returns how many of them come before the end of a
    /// header that is refused: all of them where none is.
    pub(crate) fn admit(&mut self, bytes: &[u8]) -> usize
        ensures { result ≤ length bytes.now }
    {
        let mut rest = bytes;
        for _ in 0..bytes.len() {
            let Some((first, others)) = rest.split_first() else {
                return bytes.len();
            };
            if self.ahead > 0 {
                rest = self.pass(rest);
            } else if let Err(fault) = self.take(*first) {
                self.refusal = Some(fault);
                return bytes.len().saturating_sub(rest.len());
            } else {
                rest = others;
            }
        }
        bytes.len()
    }

    // What comes after the bytes of the last frame.
    fn pass<'a>(&mut self, bytes: &'a [u8]) -> &'a [u8] {
        let count = self.ahead.min(bytes.len());
        self.ahead -= count;
        &bytes[count..]
    }

    // Takes the next byte of a header, which may be whole then, and refused.
    fn take(&mut self, byte: u8) -> Result<(), Fault> {
        let Some(place) = self.header.get_mut(self.held) else {
            return Err(Fault::Protocol);
        };
        *place = byte;
        self.held += 1;
        let Some(front) = self.header.get(..self.held) else {
            return Err(Fault::Protocol);
        };
        match FrameHeader::parse(front) {
            Ok(None) => Ok(()),
            Ok(Some((header, size))) => {
                self.held = 0;
                self.ahead = size as usize;
                self.allow(&header, size)
            }
            Err(_) => Err(Fault::Protocol),
        }
    }

    // Takes note of a frame, which may be refused.
    fn allow(&mut self, header: &FrameHeader, size: u64) -> Result<(), Fault>
        ensures goes_on { header.now.opcode ≡ OpCode.Data Data.Continue
            → OnOk result (self.new.frames ≡ self.old.frames + 1) }
    {
        match header.opcode {
            OpCode::Control(_) if size > LONGEST_SIGN => Err(Fault::Protocol),
            OpCode::Control(_) => Ok(()),
            OpCode::Data(part) => {
                if part != Data::Continue {
                    self.message = 0;
                    self.frames = 0;
                    self.empty_frames = 0;
                }
                self.in_message = !header.is_final;
                self.add(size)
            }
        }
    }

    // Adds a frame to the message, where it isn't too much.
    fn add(&mut self, size: u64) -> Result<(), Fault>
        ensures counted { OnOk result (self.new.frames ≡ self.old.frames + 1) }
        ensures few { OnOk result (self.new.frames ≤ MOST_FRAMES) }
        ensures counted_empty { size ≡ 0
            → OnOk result (self.new.empty_frames ≡ self.old.empty_frames + 1) }
        ensures few_empty { size ≡ 0 → OnOk result (self.new.empty_frames ≤ MOST_EMPTY_FRAMES) }
        ensures added { OnOk result (self.new.message ≡ self.old.message + size) }
        ensures short { OnOk result (self.new.message ≤ self.new.longest) }
        ensures taken { self.old.frames < MOST_FRAMES → self.old.empty_frames < MOST_EMPTY_FRAMES
            → self.old.message + size ≤ self.old.longest → IsOk result }
    {
        if self.frames >= MOST_FRAMES {
            return Err(Fault::ManyFrames);
        }
        self.frames += 1;
        if size == 0 {
            if self.empty_frames >= MOST_EMPTY_FRAMES {
                return Err(Fault::ManyFrames);
            }
            self.empty_frames += 1;
        }
        match self.message.checked_add(size) {
            Some(message) if message <= self.longest => {
                self.message = message;
                Ok(())
            }
            _ => Err(Fault::LongMessage),
        }
    }
}
