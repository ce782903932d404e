//! Opening the files of a journal.

use crate::generation::is_behind;
use crate::journal_file::EMPTY_LOG;
use crate::paths::path_in;
use crate::unsynced::renew_after_failed_sync;
use crate::{Access, JournalFile, Reporter};
use at_cid::Memory;
use std::alloc::Global;
use std::fmt::Display;
use std::fs::{self, File, OpenOptions};
use std::io::{self, ErrorKind, Read};
use std::os::unix::fs::MetadataExt;

/// Why the files of a journal were not opened.
#[derive(Clone, Copy, Debug, PartialEq, Eq)]
pub enum Unopened {
    /// The folder or a file can't be used, or another run works on them.
    Disk,
    /// The journal is older than the one that the last cut of this folder wrote.
    Older,
    /// Memory ran out.
    Memory,
}

impl From<Memory> for Unopened {
    fn from(_e: Memory) -> Unopened {
        Unopened::Memory
    }
}

/// The two files of a journal.
#[derive(Drop)]
pub struct Journal {
    pub log: JournalFile,
    pub other: JournalFile,
}

impl Journal {
    /// Two files that stand in memory alone, for a command that has no use for a journal.
    pub fn in_memory(alloc: Global, reporter: Reporter) -> Journal {
        Journal {
            log: JournalFile::in_memory(alloc, reporter, String::new(alloc)),
            other: JournalFile::in_memory(alloc, reporter, String::new(alloc)),
        }
    }
}

/// Opens the files `log` and `log.2` of a folder, and takes their locks, which are held as long as
/// they are open. Files that are missing are made, and then the folder is synced, so that they stand
/// before anything is acknowledged. A run that only reads works on a folder that may not be written,
/// too. What is wrong is reported, and then no row was written.
pub fn open_journal(
    alloc: Global,
    reporter: Reporter,
    folder: &str,
    access: Access,
) -> Result<Journal, Unopened> {
    check_folder(reporter, folder)?;
    let log = open_file(alloc, reporter, folder, "log", access)?;
    let other = open_file(alloc, reporter, folder, "log.2", access)?;
    check_apart(reporter, &log, &other)?;
    take_lock(reporter, &log, access)?;
    take_lock(reporter, &other, access)?;
    if is_behind(alloc, reporter, folder)? {
        return Err(Unopened::Older);
    }
    renew(alloc, reporter, &log)?;
    renew(alloc, reporter, &other)?;
    if access == Access::Writing || log.is_made() || other.is_made() {
        sync_folder(reporter, folder)?;
    }
    remark_on_nothing(reporter, folder, &log, &other)?;
    Ok(Journal { log, other })
}

/// Sees that two folders have no file of their journals in common, by the files themselves and not by
/// their names. What they share is reported.
pub fn are_apart(
    alloc: Global,
    reporter: Reporter,
    first: &str,
    second: &str,
) -> Result<(), Unopened> {
    for name in ["log", "log.2"] {
        let path = path_in(alloc, first, name)?;
        for other_name in ["log", "log.2"] {
            let other = path_in(alloc, second, other_name)?;
            if is_same_file(reporter.rt(), path.as_str(), other.as_str()) {
                let why = "this is a file of the other folder's journal too";
                return Err(failed(reporter, other.as_str(), &why));
            }
        }
    }
    if is_same_file(reporter.rt(), first, second) {
        return Err(failed(reporter, second, &"this is the other folder again"));
    }
    Ok(())
}

// Whether there is the same file at both paths.
fn is_same_file(rt: &HostRuntime, one: &str, two: &str) -> bool {
    match (fs::metadata(rt, one), fs::metadata(rt, two)) {
        (Ok(one), Ok(two)) => one.dev() == two.dev() && one.ino() == two.ino(),
        _ => false,
    }
}

// Reports why something can't be used.
fn failed<W: Display>(reporter: Reporter, what: &str, why: &W) -> Unopened {
    reporter.report(what, why);
    Unopened::Disk
}

fn check_folder(reporter: Reporter, folder: &str) -> Result<(), Unopened> {
    match fs::metadata(reporter.rt(), folder) {
        Ok(metadata) if metadata.is_dir() => Ok(()),
        Ok(_) => Err(failed(reporter, folder, &"this is no folder")),
        Err(error) if error.kind() == ErrorKind::NotFound => {
            Err(failed(reporter, folder, &"there is no such folder"))
        }
        Err(error) => Err(failed(reporter, folder, &error)),
    }
}

fn open_file(
    alloc: Global,
    reporter: Reporter,
    folder: &str,
    name: &str,
    access: Access,
) -> Result<JournalFile, Unopened> {
    let path = path_in(alloc, folder, name)?;
    match fs::metadata(reporter.rt(), path.as_str()) {
        Ok(metadata) if metadata.is_file() => open_found(alloc, reporter, path, access),
        Ok(_) => Err(failed(reporter, path.as_str(), &"this is no regular file")),
        Err(error) if error.kind() == ErrorKind::NotFound => open_missing(reporter, path, access),
        Err(error) => Err(failed(reporter, path.as_str(), &error)),
    }
}

// Opens a file that is there.
fn open_found(
    alloc: Global,
    reporter: Reporter,
    path: String,
    access: Access,
) -> Result<JournalFile, Unopened> {
    let opened = match access {
        Access::Reading => open_for_reading(alloc, reporter.rt(), path.as_str()),
        Access::Writing => open_for_writing(reporter.rt(), path.as_str()),
    };
    match opened {
        Ok((file, memory)) => Ok(JournalFile::found(reporter, path, file, memory)),
        Err(error) => Err(failed(reporter, path.as_str(), &error)),
    }
}

fn open_for_writing(rt: &HostRuntime, path: &str) -> io::Result<(File, Option<Vec<u8>>)> {
    let mut how = OpenOptions::new();
    how.read(true).write(true);
    Ok((how.open(rt, path)?, None))
}

// Opens a file to read it. One that is too short to hold a journal is opened for writing too, since
// opening a journal begins one there; where that may not be, its bytes are taken into memory.
fn open_for_reading(
    alloc: Global,
    rt: &HostRuntime,
    path: &str,
) -> io::Result<(File, Option<Vec<u8>>)> {
    let mut file = File::open(rt, path)?;
    if file.metadata()?.len() > EMPTY_LOG {
        return Ok((file, None));
    }
    match open_for_writing(rt, path) {
        Err(error) if may_not_write(&error) => {
            let mut bytes = Vec::new(alloc);
            file.read_to_end(&mut bytes)?;
            Ok((file, Some(bytes)))
        }
        opened => opened,
    }
}

// Whether a file or a folder may only be read.
fn may_not_write(error: &io::Error) -> bool {
    matches!(
        error.kind(),
        ErrorKind::PermissionDenied | ErrorKind::ReadOnlyFilesystem
    )
}

// Makes a file that is missing. Where a run that reads may not make one, it stands in memory.
fn open_missing(reporter: Reporter, path: String, access: Access) -> Result<JournalFile, Unopened> {
    if let Ok(metadata) = fs::symlink_metadata(reporter.rt(), path.as_str()) {
        if metadata.is_symlink() {
            let why = "this is a link to a file that is not there";
            return Err(failed(reporter, path.as_str(), &why));
        }
    }
    match File::create_new(reporter.rt(), path.as_str()) {
        Ok(file) => Ok(JournalFile::made(reporter, path, file)),
        Err(error) if access == Access::Reading && may_not_write(&error) => {
            Ok(JournalFile::in_memory(reporter.rt().alloc(), reporter, path))
        }
        Err(error) => Err(failed(reporter, path.as_str(), &error)),
    }
}

fn check_apart(reporter: Reporter, log: &JournalFile, other: &JournalFile) -> Result<(), Unopened> {
    match log.is_same_as(other) {
        Ok(false) => Ok(()),
        Ok(true) => Err(failed(
            reporter,
            other.path(),
            &"this is the same file as log, and a journal needs two",
        )),
        Err(error) => Err(failed(reporter, other.path(), &error)),
    }
}

fn take_lock(reporter: Reporter, file: &JournalFile, access: Access) -> Result<(), Unopened> {
    match file.lock(access) {
        Ok(()) => Ok(()),
        Err(error) if error.kind() == ErrorKind::WouldBlock => Err(failed(
            reporter,
            file.path(),
            &"another run is working on this folder",
        )),
        Err(error) => Err(failed(reporter, file.path(), &error)),
    }
}

// Makes the names of a folder's files durable.
fn sync_folder(reporter: Reporter, folder: &str) -> Result<(), Unopened> {
    match sync_names(reporter.rt(), folder) {
        Ok(()) => Ok(()),
        Err(error) => Err(failed(reporter, folder, &error)),
    }
}

/// Makes the names of a folder's files durable.
pub(crate) fn sync_names(rt: &HostRuntime, folder: &str) -> io::Result<()> {
    File::open(rt, folder)?.sync_all()
}

// Sees to it that what was written before a sync that failed is durable.
fn renew(alloc: Global, reporter: Reporter, file: &JournalFile) -> Result<(), Unopened> {
    match renew_after_failed_sync(alloc, reporter.rt(), file) {
        Ok(()) => Ok(()),
        Err(error) => Err(failed(reporter, file.path(), &error)),
    }
}

// Says so where the folder holds no journal.
fn remark_on_nothing(
    reporter: Reporter,
    folder: &str,
    log: &JournalFile,
    other: &JournalFile,
) -> Result<(), Unopened> {
    let is_unmade = match (log.is_unmade(), other.is_unmade()) {
        (Ok(one), Ok(two)) => one && two,
        (Err(error), _) => return Err(failed(reporter, log.path(), &error)),
        (_, Err(error)) => return Err(failed(reporter, other.path(), &error)),
    };
    if is_unmade {
        let what = if log.is_in_memory() {
            "there is no journal here: it is read as an empty one, and nothing is written"
        } else {
            "there is no journal here: this run begins one"
        };
        reporter.remark(folder, &what);
    }
    Ok(())
}
