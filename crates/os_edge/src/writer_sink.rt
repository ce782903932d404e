//! A sink over a writer of std.
ghost use Rattle.std.specs.Prelude.{◌≡◌, [], false};

use crate::Reporter;
use crate::waiting::write_waiting;
use relay_io::{Failed, Sink};
use std::io::{self, ErrorKind, Write};

/// Any writer, such as the standard output. What was written to it is not told. A write that std
/// answers with an error is a fault, which is reported, and so is one that takes nothing of a piece
/// that isn't empty; one that was interrupted, or that would have to wait, is made again.
#[derive(Drop)]
pub struct WriterSink<W: Write> {
    reporter: Reporter,
    name: &'static str,
    writer: W,
    faults: u64,
}

impl<W: Write> WriterSink<W> {
    /// A sink over this writer, which reports have by this name, without faults so far.
    pub fn new(reporter: Reporter, name: &'static str, writer: W) -> Self
        ensures writer { result.writer ≡ writer }
        ensures faults { result.faults ≡ 0 }
    {
        WriterSink {
            reporter,
            name,
            writer,
            faults: 0,
        }
    }
}

impl<W: Write> Sink for WriterSink<W> {
    ghost tells = { false };

    ghost written = { λ _. [] };

    ghost faults = { λ sink. sink.faults };

    fn write(&mut self, piece: &[u8]) -> Result<usize, Failed> {
        let error = match write_waiting(self.reporter.rt(), &mut self.writer, piece) {
            Ok(count) if count > 0 || piece.is_empty() => return Ok(count),
            Ok(_) => io::Error::from(ErrorKind::WriteZero),
            Err(error) => error,
        };
        self.reporter.report(self.name, &error);
        self.faults = self.faults.saturating_add(1);
        Err(Failed)
    }
}
