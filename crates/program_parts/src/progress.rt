//! How far a long run is, shown on standard error where that is a terminal.
ghost use Rattle.std.specs.Prelude.{◌≡◌};

use crate::pace::{Pace, Share};
use crate::report_lines::ReportCounts;
use os_edge::Reporter;
use relay_io::{Failed, Sink, Source};
use std::cell::Cell;
use std::fmt::{self, Display, Formatter};

/// A source that counts the bytes that are taken of it, and shows from time to time how many they are.
#[derive(Drop)]
pub struct ProgressSource<'a, I: Source> {
    input: I,
    taken: &'a Cell<u64>,
    pace: Pace,
}

/// How many bytes were read.
#[derive(Clone, Copy)]
struct BytesRead {
    megabytes: u64,
    rate: u64,
    share: Option<Share>,
}

impl Display for BytesRead {
    fn fmt<W: fmt::Write>(&self, f: &mut Formatter<W>) -> fmt::Result {
        let (megabytes, rate) = (self.megabytes, self.rate);
        write!(f, "{megabytes} MB, {rate} MB a second")?;
        match &self.share {
            Some(share) => Display::fmt(share, f),
            None => Ok(()),
        }
    }
}

impl<'a, I: Source> ProgressSource<'a, I> {
    /// The same source. Nothing is shown unless `is_shown`.
    pub fn new(input: I, reporter: Reporter, taken: &'a Cell<u64>, is_shown: bool) -> Self {
        ProgressSource {
            input,
            taken,
            pace: Pace::new(reporter, is_shown),
        }
    }

    fn show(&mut self)
        ensures input { self.new.input ≡ self.old.input }
    {
        let Some(gone) = self.pace.is_due() else {
            return;
        };
        let taken = self.taken.get();
        let megabytes = taken / 1_000_000;
        self.pace.reporter().show_progress(&BytesRead {
            megabytes,
            rate: megabytes.saturating_mul(1_000) / gone.max(1),
            share: self.pace.share(taken, gone),
        });
    }
}

impl<I: Source> Source for ProgressSource<'_, I> {
    ghost tells = { I.tells };

    ghost left = { λ source. I.left source.input };

    ghost faults = { λ source. I.faults source.input };

    fn read(&mut self, room: &mut [u8]) -> Result<usize, Failed> {
        let count = self.input.read(room)?;
        self.taken
            .set(self.taken.get().saturating_add(count as u64));
        self.show();
        Ok(count)
    }
}

/// A sink of a report, which shows from time to time what it has reported. Nothing is shown in the
/// first two seconds, of the last line, or where standard error is no terminal.
#[derive(Drop)]
pub struct ProgressSink<'a, O: Sink> {
    out: O,
    taken: &'a Cell<u64>,
    counts: ReportCounts,
    pace: Pace,
}

/// What was reported so far.
#[derive(Clone, Copy)]
struct Reported {
    counts: ReportCounts,
    megabytes: u64,
    rate: u64,
    share: Option<Share>,
}

impl Display for Reported {
    fn fmt<W: fmt::Write>(&self, f: &mut Formatter<W>) -> fmt::Result {
        let (megabytes, rate) = (self.megabytes, self.rate);
        let messages = self.counts.messages;
        let events = self.counts.events;
        let refused = self.counts.refused;
        write!(
            f,
            "{messages} messages, {megabytes} MB, {events} events, {refused} refused, {rate} messages a second"
        )?;
        match &self.share {
            Some(share) => Display::fmt(share, f),
            None => Ok(()),
        }
    }
}

impl<'a, O: Sink> ProgressSink<'a, O> {
    /// The same sink. `taken` are the bytes of the input so far; nothing is shown unless `is_shown`.
    pub fn new(out: O, reporter: Reporter, taken: &'a Cell<u64>, is_shown: bool) -> Self {
        ProgressSink {
            out,
            taken,
            counts: ReportCounts::new(),
            pace: Pace::new(reporter, is_shown),
        }
    }

    fn show(&mut self)
        ensures out { self.new.out ≡ self.old.out }
    {
        let Some(gone) = self.pace.is_due() else {
            return;
        };
        let taken = self.taken.get();
        let counts = self.counts;
        self.pace.reporter().show_progress(&Reported {
            counts,
            megabytes: taken / 1_000_000,
            rate: counts.messages.saturating_mul(1_000) / gone.max(1),
            share: self.pace.share(taken, gone),
        });
    }
}

impl<O: Sink> Sink for ProgressSink<'_, O> {
    ghost tells = { O.tells };

    ghost written = { λ sink. O.written sink.out };

    ghost faults = { λ sink. O.faults sink.out };

    fn write(&mut self, piece: &[u8]) -> Result<usize, Failed> {
        self.pace.reporter().clear_progress();
        let count = self.out.write(piece)?;
        if self.pace.is_shown() && !piece.starts_with(b"end ") {
            self.counts.read(&piece[..count]);
            self.show();
        }
        Ok(count)
    }
}
