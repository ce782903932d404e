//! A stream of frames that is cut off at the first header that is refused.
ghost use Rattle.std.specs.Prelude.{◌≤◌, length};

use crate::fault::Fault;
use crate::frames::Frames;
use std::io;
use std::io::{ErrorKind, Read, Write};

/// A stream, and where its frames stand. What comes before a refused header is read; from then on
/// reads answer `InvalidData`.
#[derive(Drop)]
pub(crate) struct Framed<S> {
    stream: S,
    frames: Frames,
}

impl<S> Framed<S> {
    /// A stream of frames whose messages have at most this many bytes. The first bytes of the frames
    /// were read already: they are cut off at a header that is refused.
    pub(crate) fn new(stream: S, longest: usize, first: &mut Vec<u8>) -> Framed<S> {
        let mut frames = Frames::new(longest);
        let count = frames.admit(first.as_slice());
        first.truncate(count);
        Framed { stream, frames }
    }

    /// The stream below.
    pub(crate) fn below(&mut self) -> &mut S {
        &mut self.stream
    }

    /// Why a header was refused, if one was.
    pub(crate) fn refusal(&self) -> Option<Fault> {
        self.frames.refusal()
    }

    /// Whether a message in several frames has begun whose last frame hasn't come.
    pub(crate) fn is_in_message(&self) -> bool {
        self.frames.is_in_message()
    }
}

impl<S: Read> Read for Framed<S> {
    fn read(&mut self, buf: &mut [u8]) -> io::Result<usize> {
        if self.refusal().is_some() {
            return Err(io::Error::from(ErrorKind::InvalidData));
        }
        let came = self.stream.read(buf)?;
        let count = self.frames.admit(&buf[..came]);
        if count == 0 && self.refusal().is_some() {
            return Err(io::Error::from(ErrorKind::InvalidData));
        }
        Ok(count)
    }
}

impl<S: Write> Write for Framed<S> {
    fn write(&mut self, buf: &[u8]) -> io::Result<usize> {
        self.stream.write(buf)
    }

    fn flush(&mut self) -> io::Result<()> {
        self.stream.flush()
    }
}
