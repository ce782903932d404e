//! What the end of a run means.

use os_edge::Reporter;
use run_base::Status;
use std::fmt::{self, Display, Formatter};
use ws_edge::Fault;

/// Where consumers connect.
const DOOR: &str = "127.0.0.1:2470";

/// Where requests are taken.
const WIRE: &str = "127.0.0.1:2471";

/// Why a run ended with a status, in a sentence.
#[derive(Clone, Copy)]
struct Meaning(Status);

impl Display for Meaning {
    fn fmt<W: fmt::Write>(&self, f: &mut Formatter<W>) -> fmt::Result {
        match self.0 {
            Status::Done => Ok(()),
            Status::BadTape(place) => write!(
                f,
                "no record of a tape begins at byte {place}: look at how the tape was cut or copied"
            ),
            Status::Usage => f.write_str("these words are no command: see relay --help"),
            Status::ReadFault => f.write_str("it can't be read"),
            Status::WriteFault => f.write_str("it can't be written"),
            Status::Disk => f.write_str("a file of the journal failed"),
            Status::Authority => f.write_str(
                "no table of the DID method is left that can be asked: mend the tables, and run it again",
            ),
            Status::Repos => f.write_str("a repository can't be read"),
            Status::Feed => f.write_str("the host can't be followed"),
            Status::Door => f.write_str("no consumer can connect"),
            Status::BadLog(place) => write!(
                f,
                "log and log.2 hold no journal, as byte {place} shows: put back a copy of both"
            ),
            Status::Full(end) => write!(
                f,
                "the journal has no room for a row that would end at byte {end}: cut its front off"
            ),
            Status::SeqEnd => f.write_str("the last number was given: begin in a fresh folder"),
            Status::TooLong => f.write_str("it is longer than its limit"),
            Status::Memory => f.write_str("there is too little of it"),
            Status::Refused(_) => f.write_str("refused: the line on standard output says why"),
            Status::Clock => f.write_str("it can't be read"),
            Status::BadStream(place) => write!(
                f,
                "no message begins at byte {place}: look at how the stream was cut or copied"
            ),
            Status::Wire => f.write_str("no request can be taken"),
        }
    }
}

// What a status is about.
fn subject(status: Status, folder: &str) -> &str {
    match status {
        Status::BadTape(_) | Status::ReadFault | Status::TooLong | Status::BadStream(_) => {
            "standard input"
        }
        Status::WriteFault => "standard output",
        Status::Memory => "memory",
        Status::Clock => "the clock",
        _ => folder,
    }
}

/// Reports why a call of a socket failed, where a run ended with that.
pub fn report_sockets(
    reporter: Reporter,
    status: Status,
    words: &[String],
    feed: Option<Fault>,
    door: Option<Fault>,
    wire: Option<Fault>,
) {
    match (status, feed, door, wire, words) {
        (Status::Feed, Some(fault), _, _, [_, host, ..]) => {
            reporter.report(host.as_str(), &fault);
        }
        (Status::Door, _, Some(fault), _, _) => reporter.report(DOOR, &fault),
        (Status::Wire, _, _, Some(fault), _) => reporter.report(WIRE, &fault),
        _ => {}
    }
}

/// Reports why a run ended, unless it did what it was to do, or the part that failed has reported it.
pub fn report_end(reporter: Reporter, folder: &str, status: Status) {
    if status == Status::Done {
        return;
    }
    if reporter.has_reported() && status != Status::Authority {
        return;
    }
    reporter.report(subject(status, folder), &Meaning(status));
}
