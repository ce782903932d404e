//! A relay that follows another one: what the first serves of its journal is taken into the journal of the second as messages of a
//! host, from opening to the last line of the report.
#![tactic(auto)]

mod commands;
mod help;
mod journals;
mod laws;
mod meaning;
mod running;
mod stream;

use at_cid::Memory;
use at_syntax::host_ok;
pub use commands::Chains;
use help::{HELP, VERSION};
pub use journals::MOST_SERVED;
pub use laws::served_follow;
use meaning::report_end;
use os_edge::{
    Access, FileRepos, Journal, Reporter, SystemClock, Unopened, WriterSink, are_apart,
    hold_descriptors, open_journal, path_in,
};
use program_parts::{ArgumentsFault, ProgressSink, Texts, read_arguments, write_text};
use relay_disk::FileDisk;
use run_base::Status;
pub use running::chain;
use std::cell::Cell;
use std::process::ExitCode;

/// What the program says of itself.
const TEXTS: Texts = Texts {
    help: HELP,
    version: VERSION,
};

// How it ends where a real object can't be made.
fn status_of(fault: Unopened) -> Status {
    match fault {
        Unopened::Disk => Status::Disk,
        Unopened::Older => Status::BadLog(0),
        Unopened::Memory => Status::Memory,
    }
}

// Runs the words on the real objects of two folders, of which the first is only read.
fn run_in(
    reporter: Reporter,
    first: &str,
    second: &str,
    words: &[String],
) -> Result<Status, Unopened> {
    let rt = *reporter.rt();
    let alloc = rt.alloc();
    are_apart(alloc, reporter, first, second)?;
    let Journal { log, other } = open_journal(alloc, reporter, first, Access::Reading)?;
    let mut first_disk = FileDisk::on(log);
    let mut first_other = FileDisk::on(other);
    let Journal { log, other } = open_journal(alloc, reporter, second, Access::Writing)?;
    let mut second_disk = FileDisk::on(log);
    let mut second_other = FileDisk::on(other);
    let mut repos = FileRepos::new(reporter, alloc, path_in(alloc, second, "repos")?);
    let mut clock = SystemClock::new(reporter, rt);
    let taken = Cell::new(0);
    let mut out = ProgressSink::new(
        WriterSink::new(reporter, "standard output", rt.stdout()),
        reporter,
        &taken,
        true,
    );
    let status = chain(
        alloc,
        words,
        &mut first_disk,
        &mut first_other,
        &mut second_disk,
        &mut second_other,
        &mut repos,
        &mut clock,
        &mut out,
    );
    reporter.clear_progress();
    Ok(status)
}

// Runs the program with these words.
fn run(reporter: Reporter, words: &[String]) -> Status {
    if let Some(text) = TEXTS.asked(words) {
        return match write_text(reporter, text) {
            Ok(()) => Status::Done,
            Err(_) => Status::WriteFault,
        };
    }
    let [first, second, words @ ..] = words else {
        reporter.show(&HELP);
        return Status::Usage;
    };
    if first.is_empty() || second.is_empty() {
        reporter.report("usage", &"the name of a folder is empty");
        return Status::Usage;
    }
    if !is_host(words) {
        reporter.report(
            "usage: relay_chain DIR1 DIR2 HOST",
            &"HOST is the name of a host, alone",
        );
        return Status::Usage;
    }
    match run_in(reporter, first.as_str(), second.as_str(), words) {
        Ok(status) => {
            report_end(reporter, second.as_str(), status);
            status
        }
        Err(fault) => status_of(fault),
    }
}

// Whether the words are the name of a host alone.
fn is_host(words: &[String]) -> bool {
    match words {
        [host] => host_ok(host.as_str()),
        _ => false,
    }
}

// The words of the run, once the standard descriptors are held.
fn words_given(reporter: Reporter) -> Result<Vec<String>, Status> {
    match hold_descriptors(reporter.rt()) {
        Ok(closed) if !closed.output => {}
        Ok(_) => {
            reporter.report("standard output", &"it is closed");
            return Err(Status::WriteFault);
        }
        Err(error) => {
            reporter.report("standard streams", &error);
            return Err(Status::WriteFault);
        }
    }
    match read_arguments(reporter.rt()) {
        Ok(words) => Ok(words),
        Err(ArgumentsFault::NotText) => {
            reporter.report("usage", &"a word is no UTF-8 text");
            Err(Status::Usage)
        }
        Err(ArgumentsFault::Memory) => Err(Status::Memory),
    }
}

fn main(rt: HostRuntime) -> ExitCode {
    let status = match Reporter::new(rt, "relay_chain") {
        Ok(reporter) => match words_given(reporter) {
            Ok(words) => run(reporter, words.as_slice()),
            Err(status) => status,
        },
        Err(Memory) => Status::Memory,
    };
    ExitCode::from(status.code())
}
