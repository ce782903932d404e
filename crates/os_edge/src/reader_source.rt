//! A source over a reader of std.
ghost use Rattle.std.specs.Prelude.{◌≡◌, [], false};

use crate::Reporter;
use crate::waiting::read_waiting;
use relay_io::{Failed, Source};
use std::io::Read;

/// Any reader, such as the standard input. What is left in it is not told. A read that std answers
/// with an error is a fault, which is reported; one that was interrupted, or that would have to wait,
/// is made again.
#[derive(Drop)]
pub struct ReaderSource<R: Read> {
    reporter: Reporter,
    name: &'static str,
    reader: R,
    faults: u64,
}

impl<R: Read> ReaderSource<R> {
    /// A source over this reader, which reports have by this name, without faults so far.
    pub fn new(reporter: Reporter, name: &'static str, reader: R) -> Self
        ensures reader { result.reader ≡ reader }
        ensures faults { result.faults ≡ 0 }
    {
        ReaderSource {
            reporter,
            name,
            reader,
            faults: 0,
        }
    }
}

impl<R: Read> Source for ReaderSource<R> {
    ghost tells = { false };

    ghost left = { λ _. [] };

    ghost faults = { λ source. source.faults };

    fn read(&mut self, room: &mut [u8]) -> Result<usize, Failed> {
        match read_waiting(self.reporter.rt(), &mut self.reader, room) {
            Ok(count) => Ok(count),
            Err(error) => {
                self.reporter.report(self.name, &error);
                self.faults = self.faults.saturating_add(1);
                Err(Failed)
            }
        }
    }
}
