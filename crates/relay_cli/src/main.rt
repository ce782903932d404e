//! The relay's program: one command a run.
#![tactic(auto)]

mod arguments;
mod checking;
mod command;
mod explaining;
mod help;
mod judging;
mod meaning;
mod parts;
mod report;
mod running;
mod status;
mod times;
mod verdict;
mod words_fault;

use at_authority::Panel;
use at_cid::Memory;
pub use checking::check;
use command::Command;
use explaining::command_or_why;
use help::{HELP, VERSION};
use meaning::{report_end, report_sockets};
use os_edge::{
    Access, FileRepos, Journal, JournalFile, ReaderSource, Reporter, SystemClock, Unopened,
    WriterSink, hold_descriptors, open_journal, path_in, record_generation,
};
use parts::{TABLES, authority_in, remark_on_stranger};
use program_parts::{
    ArgumentsFault, ProgressSink, ProgressSource, Texts, read_arguments, write_text,
};
use relay_disk::FileDisk;
pub use run_base::Status;
pub use running::relay;
use std::cell::Cell;
use std::process::ExitCode;
use times::remark_on_time;
use ws_edge::{DOOR_PORT, TcpWire, WIRE_PORT, WsDoor, WsFeed};

/// What the program says of itself.
const TEXTS: Texts = Texts {
    help: HELP,
    version: VERSION,
};

// The disks of a folder's journal, opened as the command needs them; empty ones in memory for a
// command that has no use for a journal.
fn disks_for(
    reporter: Reporter,
    folder: &str,
    command: &Command,
) -> Result<(FileDisk<JournalFile>, FileDisk<JournalFile>), Unopened> {
    let alloc = reporter.rt().alloc();
    let Journal { log, other } = match command.access() {
        Some(access) => open_journal(alloc, reporter, folder, access)?,
        None => Journal::in_memory(alloc, reporter),
    };
    Ok((FileDisk::on(log), FileDisk::on(other)))
}

// What is worth a remark before a command begins.
fn remark_before(reporter: Reporter, folder: &str, command: &Command) -> Result<(), Memory> {
    match command {
        Command::Follow(host, _) => remark_on_stranger(reporter, folder, host.as_str()),
        Command::Takedown(_, time) | Command::Restore(_, time) | Command::Sync(_, time) => {
            remark_on_time(reporter, time.as_str());
            Ok(())
        }
        _ => Ok(()),
    }
}

// Runs a command on the real objects of a folder.
fn run_in(
    reporter: Reporter,
    folder: &str,
    command: &Command,
    words: &[String],
) -> Result<Status, Unopened> {
    let rt = *reporter.rt();
    let alloc = rt.alloc();
    let (mut disk, mut other) = disks_for(reporter, folder, command)?;
    remark_before(reporter, folder, command)?;
    let mut panel = Panel::new(alloc);
    for (method, name) in TABLES {
        let Ok(authority) = Box::new(alloc, authority_in(reporter, folder, name)?) else {
            return Err(Unopened::Memory);
        };
        panel.add(method, authority)?;
    }
    let mut repos = FileRepos::new(reporter, alloc, path_in(alloc, folder, "repos")?);
    let mut clock = SystemClock::new(reporter, rt);
    let taken = Cell::new(0);
    let mut input = ProgressSource::new(
        ReaderSource::new(reporter, "standard input", rt.stdin()),
        reporter,
        &taken,
        matches!(command, Command::Mirror),
    );
    let mut out = ProgressSink::new(
        WriterSink::new(reporter, "standard output", rt.stdout()),
        reporter,
        &taken,
        matches!(command, Command::Ingest | Command::Follow(_, _)),
    );
    let mut feed = WsFeed::new(alloc, rt);
    let mut door = WsDoor::new(alloc, rt, DOOR_PORT);
    let mut wire = TcpWire::new(rt, WIRE_PORT);
    let status = relay(
        alloc, words, &mut panel, &mut feed, &mut repos, &mut disk, &mut other, &mut input,
        &mut out, &mut door, &mut clock, &mut wire,
    );
    reporter.clear_progress();
    report_sockets(
        reporter,
        status,
        words,
        feed.fault(),
        door.fault(),
        wire.fault(),
    );
    report_end(reporter, folder, status);
    if matches!(command, Command::Cut(_)) && status == Status::Done {
        record_generation(alloc, reporter, folder)?;
    }
    Ok(status)
}

// Runs the program with these words, where the standard input is closed or not.
fn run(reporter: Reporter, words: &[String], is_closed: bool) -> Status {
    if let Some(text) = TEXTS.asked(words) {
        return match write_text(reporter, text) {
            Ok(()) => Status::Done,
            Err(_) => Status::WriteFault,
        };
    }
    let [folder, words @ ..] = words else {
        reporter.show(&HELP);
        return Status::Usage;
    };
    let command = match command_or_why(reporter, folder.as_str(), words) {
        Ok(command) => command,
        Err(status) => return status,
    };
    if is_closed && command.reads_input() {
        reporter.report("standard input", &"it is closed");
        return Status::ReadFault;
    }
    match run_in(reporter, folder.as_str(), &command, words) {
        Ok(status) => status,
        Err(fault) => status::of_unopened(fault),
    }
}

// The words of the run, and whether the standard input is closed, once the standard descriptors are held.
fn words_given(reporter: Reporter) -> Result<(Vec<String>, bool), Status> {
    let closed = match hold_descriptors(reporter.rt()) {
        Ok(closed) => closed,
        Err(error) => {
            reporter.report("standard streams", &error);
            return Err(Status::WriteFault);
        }
    };
    if closed.output {
        reporter.report("standard output", &"it is closed");
        return Err(Status::WriteFault);
    }
    match read_arguments(reporter.rt()) {
        Ok(words) => Ok((words, closed.input)),
        Err(ArgumentsFault::NotText) => {
            reporter.report("usage", &"a word is no UTF-8 text");
            Err(Status::Usage)
        }
        Err(ArgumentsFault::Memory) => Err(Status::Memory),
    }
}

fn main(rt: HostRuntime) -> ExitCode {
    let status = match Reporter::new(rt, "relay") {
        Ok(reporter) => match words_given(reporter) {
            Ok((words, is_closed)) => run(reporter, words.as_slice(), is_closed),
            Err(status) => status,
        },
        Err(_) => Status::Memory,
    };
    ExitCode::from(status.code())
}
