//! When progress is shown, and how much of a run is left.

use os_edge::Reporter;
use std::fmt::{self, Display, Formatter};
use std::fs;
use std::io::IsTerminal;
use std::time::Instant;

/// How many milliseconds a run goes on before its progress is shown.
const FIRST: u64 = 2_000;

/// The milliseconds from one time to the next.
const NEXT: u64 = 500;

/// When progress is to be shown: never where standard error is no terminal, and else from time to
/// time.
#[derive(Drop)]
pub(crate) struct Pace {
    reporter: Reporter,
    start: Option<Instant>,
    due: u64,
    // The length of the input in bytes, where it is a file.
    whole: Option<u64>,
}

/// How much of the input is taken, and how long the rest will take.
#[derive(Clone, Copy)]
pub(crate) struct Share {
    percent: u64,
    seconds_left: u64,
}

impl Display for Share {
    fn fmt<W: fmt::Write>(&self, f: &mut Formatter<W>) -> fmt::Result {
        let (percent, seconds) = (self.percent, self.seconds_left);
        write!(f, ", {percent} %, {seconds} s left")
    }
}

impl Pace {
    pub(crate) fn new(reporter: Reporter, is_shown: bool) -> Self {
        let start = if is_shown && reporter.rt().stderr().is_terminal() {
            Instant::now(reporter.rt()).ok()
        } else {
            None
        };
        let whole = match start {
            Some(_) => length_of_input(reporter.rt()),
            None => None,
        };
        Pace {
            reporter,
            start,
            due: FIRST,
            whole,
        }
    }

    /// Whether progress is shown at all.
    pub(crate) fn is_shown(&self) -> bool {
        self.start.is_some()
    }

    /// The reporter.
    pub(crate) fn reporter(&self) -> Reporter {
        self.reporter
    }

    /// The milliseconds since the start, where it is time to show progress.
    pub(crate) fn is_due(&mut self) -> Option<u64> {
        let gone = self.start?.elapsed(self.reporter.rt()).ok()?;
        let gone = u64::try_from(gone.as_millis()).ok()?;
        if gone < self.due {
            return None;
        }
        self.due = gone.saturating_add(NEXT);
        Some(gone)
    }

    /// How far the run is after these milliseconds, where the length of the input is known.
    pub(crate) fn share(&self, taken: u64, gone: u64) -> Option<Share> {
        let whole = self.whole?;
        if taken == 0 || taken > whole {
            return None;
        }
        let left = gone.saturating_mul(whole - taken) / taken / 1_000;
        Some(Share {
            percent: taken.saturating_mul(100) / whole,
            seconds_left: left,
        })
    }
}

// The length of the standard input, where it is a regular file.
fn length_of_input(rt: &HostRuntime) -> Option<u64> {
    let metadata = fs::metadata(rt, "/dev/stdin").ok()?;
    if metadata.is_file() {
        Some(metadata.len())
    } else {
        None
    }
}
