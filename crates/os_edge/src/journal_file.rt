//! A file of a journal.
ghost use Rattle.std.specs.Prelude.{[], false};

use crate::unsynced::mark_failed_sync;
use crate::{Access, Reporter};
use relay_disk::FileCalls;
use std::alloc::Global;
use std::fs::{File, Metadata};
use std::io::{self, ErrorKind};
use std::os::unix::fs::{FileExt, MetadataExt};

/// The length of a log without rows, in bytes. A shorter file holds no journal.
pub(crate) const EMPTY_LOG: u64 = 10;

/// One of the two files of a journal. Its lock is held as long as this value lives. Each call that
/// fails is reported.
///
/// Where a file may only be read and is too short to hold a journal, its content is taken into memory,
/// and what is written goes there.
#[derive(Drop)]
pub struct JournalFile {
    reporter: Reporter,
    path: String,
    file: Option<File>,
    // What stands in place of the file's content.
    memory: Option<Vec<u8>>,
    is_made: bool,
}

// The metadata of a file that still has a name: what is written to one without would be lost.
fn metadata_of(file: &File) -> io::Result<Metadata> {
    let metadata = file.metadata()?;
    if metadata.nlink() == 0 {
        return Err(io::Error::other("it was removed or replaced while this run worked on it"));
    }
    Ok(metadata)
}

fn missing() -> io::Error {
    io::Error::from(ErrorKind::NotFound)
}

impl JournalFile {
    /// A file that was there, and what stands in place of its content, if anything does.
    pub(crate) fn found(
        reporter: Reporter,
        path: String,
        file: File,
        memory: Option<Vec<u8>>,
    ) -> JournalFile {
        JournalFile {
            reporter,
            path,
            file: Some(file),
            memory,
            is_made: false,
        }
    }

    /// A file that this run has made.
    pub(crate) fn made(reporter: Reporter, path: String, file: File) -> JournalFile {
        JournalFile {
            reporter,
            path,
            file: Some(file),
            memory: None,
            is_made: true,
        }
    }

    /// No file: what is written goes into memory.
    pub(crate) fn in_memory(alloc: Global, reporter: Reporter, path: String) -> JournalFile {
        JournalFile {
            reporter,
            path,
            file: None,
            memory: Some(Vec::new(alloc)),
            is_made: false,
        }
    }

    /// Whether this run has made the file.
    pub(crate) fn is_made(&self) -> bool {
        self.is_made
    }

    /// Whether what is written goes into memory.
    pub(crate) fn is_in_memory(&self) -> bool {
        self.memory.is_some()
    }

    /// The file of the system, if there is one that is written to.
    pub(crate) fn on_disk(&self) -> Option<&File> {
        match &self.memory {
            Some(_) => None,
            None => self.file.as_ref(),
        }
    }

    /// The path.
    pub(crate) fn path(&self) -> &str {
        self.path.as_str()
    }

    /// Whether the file is too short to hold a journal, or isn't there.
    pub(crate) fn is_unmade(&self) -> io::Result<bool> {
        match &self.file {
            Some(file) => Ok(file.metadata()?.len() < EMPTY_LOG),
            None => Ok(true),
        }
    }

    /// Whether this is the same file as another one.
    pub(crate) fn is_same_as(&self, other: &JournalFile) -> io::Result<bool> {
        match (&self.file, &other.file) {
            (Some(one), Some(two)) => {
                let (one, two) = (one.metadata()?, two.metadata()?);
                Ok(one.dev() == two.dev() && one.ino() == two.ino())
            }
            _ => Ok(false),
        }
    }

    /// Takes the lock of the file, for this run alone or together with others that read.
    pub(crate) fn lock(&self, access: Access) -> io::Result<()> {
        let Some(file) = &self.file else {
            return Ok(());
        };
        match access {
            Access::Reading => file.try_lock_shared()?,
            Access::Writing => file.try_lock()?,
        }
        Ok(())
    }

    fn file(&self) -> io::Result<&File> {
        match &self.file {
            Some(file) => Ok(file),
            None => Err(missing()),
        }
    }

    fn len(&self) -> io::Result<u64> {
        match &self.memory {
            Some(bytes) => Ok(bytes.len() as u64),
            None => Ok(metadata_of(self.file()?)?.len()),
        }
    }

    fn read_at(&self, place: u64, room: &mut [u8]) -> io::Result<()> {
        match &self.memory {
            Some(bytes) => read_of(bytes.as_slice(), place, room),
            None => self.file()?.read_exact_at(room, place),
        }
    }

    fn write(&mut self, place: u64, piece: &[u8]) -> io::Result<()> {
        match &mut self.memory {
            Some(bytes) => write_over(bytes, place, piece),
            None => self.file()?.write_all_at(piece, place),
        }
    }

    fn set_len(&mut self, size: u64) -> io::Result<()> {
        match &mut self.memory {
            Some(bytes) => {
                bytes.truncate(usize::try_from(size).unwrap_or(usize::MAX));
                Ok(())
            }
            None => self.file()?.set_len(size),
        }
    }

    fn sync_all(&self) -> io::Result<()> {
        if self.memory.is_some() {
            return Ok(());
        }
        let file = self.file()?;
        if let Err(error) = file.sync_all() {
            mark_failed_sync(self.reporter.rt(), self.path.as_str());
            return Err(error);
        }
        metadata_of(file)?;
        Ok(())
    }

    // The answer, which is reported where it is an error.
    fn reported<T>(&self, answer: io::Result<T>) -> io::Result<T> {
        if let Err(error) = &answer {
            self.reporter.report(self.path.as_str(), error);
        }
        answer
    }
}

// Fills the room with bytes from a place on.
fn read_of(bytes: &[u8], place: u64, room: &mut [u8]) -> io::Result<()> {
    let place = usize::try_from(place).unwrap_or(usize::MAX);
    let Some(rest) = bytes.get(place..) else {
        return Err(io::Error::from(ErrorKind::UnexpectedEof));
    };
    let Some(front) = rest.get(..room.len()) else {
        return Err(io::Error::from(ErrorKind::UnexpectedEof));
    };
    room.copy_from_slice(front);
    Ok(())
}

// Writes a piece over bytes from a place within them, and past their end.
fn write_over(bytes: &mut Vec<u8>, place: u64, piece: &[u8]) -> io::Result<()> {
    let place = usize::try_from(place).unwrap_or(usize::MAX);
    let Some(end) = place.checked_add(piece.len()) else {
        return Err(io::Error::from(ErrorKind::InvalidInput));
    };
    if place > bytes.len() {
        return Err(io::Error::from(ErrorKind::InvalidInput));
    }
    if end > bytes.len() {
        bytes.resize(end, 0)?;
    }
    bytes.as_mut_slice()[place..end].copy_from_slice(piece);
    Ok(())
}

impl FileCalls for JournalFile {
    ghost tells = { false };

    ghost made = { λ _. [] };

    ghost size_told = { λ _. 0 };

    fn size(&mut self) -> io::Result<u64> {
        self.reported(self.len())
    }

    fn read(&mut self, place: u64, room: &mut [u8]) -> io::Result<()> {
        let answer = self.read_at(place, room);
        self.reported(answer)
    }

    fn write_at(&mut self, place: u64, piece: &[u8]) -> io::Result<()> {
        let answer = self.write(place, piece);
        self.reported(answer)
    }

    fn cut(&mut self, size: u64) -> io::Result<()> {
        let answer = self.set_len(size);
        self.reported(answer)
    }

    fn sync(&mut self) -> io::Result<()> {
        self.reported(self.sync_all())
    }
}
