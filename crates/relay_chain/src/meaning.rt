//! What the end of a run means.

use os_edge::Reporter;
use run_base::Status;
use std::fmt::{self, Display, Formatter};

/// Why a run ended with a status, in a sentence.
#[derive(Clone, Copy)]
struct Meaning(Status);

impl Display for Meaning {
    fn fmt<W: fmt::Write>(&self, f: &mut Formatter<W>) -> fmt::Result {
        match self.0 {
            Status::Done => Ok(()),
            Status::Usage => f.write_str("these words are no host: see relay_chain --help"),
            Status::WriteFault => f.write_str("it can't be written"),
            Status::Disk => f.write_str("a file of a journal failed"),
            Status::Repos => f.write_str("a repository can't be read"),
            Status::BadLog(place) => write!(
                f,
                "the files of a folder hold no journal, as byte {place} shows: put back a copy of its log and log.2"
            ),
            Status::Full(end) => write!(
                f,
                "the second journal has no room for a row that would end at byte {end}: cut its front off"
            ),
            Status::SeqEnd => f.write_str("the last number was given: begin in a fresh folder"),
            Status::Memory => f.write_str("there is too little of it"),
            Status::Clock => f.write_str("it can't be read"),
            // Those of parts that this program hasn't.
            _ => Ok(()),
        }
    }
}

// What a status is about.
fn subject(status: Status, folder: &str) -> &str {
    match status {
        Status::WriteFault => "standard output",
        Status::Memory => "memory",
        Status::Clock => "the clock",
        _ => folder,
    }
}

/// Reports why a run ended, unless it did what it was to do, or the part that failed has reported it.
pub fn report_end(reporter: Reporter, folder: &str, status: Status) {
    if status != Status::Done && !reporter.has_reported() {
        reporter.report(subject(status, folder), &Meaning(status));
    }
}
