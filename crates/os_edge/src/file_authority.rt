//! An authority over a file, which tells nothing.
ghost use Rattle.std.specs.Prelude.{◌≡◌, None, Some, IsSome, OnOk, IsErrOf};
ghost use Rattle.at_authority.specs.Answers.{CountsFailure};

use crate::reporter::write_line;
use crate::stamp::Stamp;
use crate::table_text::read_table;
use at_authority::{Asked, Authority, Table, TableFault};
use at_cid::Memory;
use std::alloc::Global;
use std::fmt::{self, Display, Formatter};
use std::io::ErrorKind;

/// The program that asks tables, by which reports begin.
const PROGRAM: &str = "relay";

/// The line of a file that is none of a table, by its number from 1.
#[derive(Clone, Copy)]
struct BadLine(u64);

impl Display for BadLine {
    fn fmt<W: fmt::Write>(&self, f: &mut Formatter<W>) -> fmt::Result {
        write!(f, "line {} is not a line of a table", self.0)
    }
}

/// An authority over a file that holds a table. The file is read at the first call, and at a refresh
/// where it may be another one than it was. A file that can't be read, is no table, or isn't the one
/// that its `.sum` file describes is a fault, which is reported with the line that is wrong. It
/// shows nothing.
#[derive(Drop)]
pub struct FileAuthority {
    rt: HostRuntime,
    alloc: Global,
    path: String,
    table: Option<Table>,
    // The stamp of the file that was read, unless it might have changed again under the same stamp.
    stamp: Option<Stamp>,
    faults: u64,
}

impl FileAuthority {
    /// The authority over the file at this path, without faults so far. Nothing is read yet.
    pub fn new(rt: HostRuntime, alloc: Global, path: String) -> Self
        ensures path { result.path ≡ path }
        ensures unread { result.table ≡ None }
        ensures faults { result.faults ≡ 0 }
    {
        FileAuthority {
            rt,
            alloc,
            path,
            table: None,
            stamp: None,
            faults: 0,
        }
    }

    // Counts a fault, and reports it.
    fn fail<T, W: Display>(&mut self, why: &W) -> Result<T, Asked>
        ensures failed { IsErrOf result Asked.Failed }
        ensures counted { CountsFailure result self.old.faults self.new.faults }
    {
        write_line(&self.rt, PROGRAM, self.path.as_str(), why);
        self.faults = self.faults.saturating_add(1);
        Err(Asked::Failed)
    }

    // Reads the file. Where that fails, the table is as before.
    fn read(&mut self) -> Result<(), Asked>
        ensures read { OnOk result (IsSome self.new.table) }
        ensures counted { CountsFailure result self.old.faults self.new.faults }
    {
        let (text, stamp) = match read_table(self.alloc, &self.rt, self.path.as_str()) {
            Ok(read) => read,
            Err(error) if error.kind() == ErrorKind::OutOfMemory => return Err(Asked::Memory),
            Err(error) => return self.fail(&error),
        };
        match Table::parse(self.alloc, text.as_str()) {
            Ok(table) => {
                self.table = Some(table);
                self.stamp = stamp;
                Ok(())
            }
            Err(TableFault::BadLine(line)) => self.fail(&BadLine(line)),
            Err(TableFault::Memory) => Err(Asked::Memory),
        }
    }

    // Whether the file is still the one that was read.
    fn is_current(&self) -> bool {
        let Some(stamp) = self.stamp else {
            return false;
        };
        match Stamp::at(&self.rt, self.path.as_str()) {
            Ok(found) => found == stamp,
            Err(_) => false,
        }
    }

    // Reads the file where that wasn't done yet.
    fn read_once(&mut self) -> Result<(), Asked>
        ensures read { OnOk result (IsSome self.new.table) }
        ensures counted { CountsFailure result self.old.faults self.new.faults }
    {
        if self.table.is_some() {
            return Ok(());
        }
        self.read()
    }
}

impl Authority for FileAuthority {
    ghost tells = { λ _. None };

    ghost faults = { λ authority. authority.faults };

    fn home(&mut self, did: &str, host: &str) -> Result<bool, Asked> {
        if let Err(fault) = self.read_once() {
            return Err(fault);
        }
        match &self.table {
            Some(table) => Ok(table.home(did, host)),
            None => unreachable!(),
        }
    }

    fn verdict(&mut self, did: &str, digest: &[u8; 32], sig: &[u8]) -> Result<bool, Asked> {
        if let Err(fault) = self.read_once() {
            return Err(fault);
        }
        match &self.table {
            Some(table) => match table.verdict(did, digest, sig) {
                Ok(good) => Ok(good),
                Err(Memory) => Err(Asked::Memory),
            },
            None => unreachable!(),
        }
    }

    fn refresh(&mut self, _did: &str) -> Result<(), Asked> {
        if self.is_current() {
            return Ok(());
        }
        self.read()
    }
}
