//! Repositories in the files of a folder.
ghost use Rattle.std.specs.Prelude.{◌≡◌, [], None, false};

use crate::Reporter;
use at_cid::{Memory, TEXT_LEN, cid_of};
use relay_io::{Failed, Repos, ReposFault};
use std::alloc::Global;
use std::fs::{self, File};
use std::io::{self, ErrorKind, Read};

/// Repositories in the files of a folder, which tell nothing. That of a DID is the file named by the
/// text of the link over the DID's bytes (59 characters) and `.car`. Where the file isn't there, the
/// DID has none; where it is no regular file, or may not be read, it has none either, and that is
/// reported. Any other error of the system is a fault, which is reported too.
#[derive(Drop)]
pub struct FileRepos {
    reporter: Reporter,
    alloc: Global,
    folder: String,
    opened: Option<File>,
    faults: u64,
}

impl FileRepos {
    /// The repositories of this folder, none of them open, without faults so far.
    pub fn new(reporter: Reporter, alloc: Global, folder: String) -> Self
        ensures folder { result.folder ≡ folder }
        ensures closed { result.opened ≡ None }
        ensures faults { result.faults ≡ 0 }
    {
        FileRepos {
            reporter,
            alloc,
            folder,
            opened: None,
            faults: 0,
        }
    }

    fn path(&self, did: &str) -> Result<String, Memory> {
        let mut name = [0; TEXT_LEN];
        cid_of(did.as_bytes()).write_text(&mut name);
        let mut path = self.folder.clone()?;
        path.push('/')?;
        for letter in name {
            path.push(char::from(letter))?;
        }
        path.push_str(".car")?;
        Ok(path)
    }
}

// Opens the file at a path, if there is one that can be read as a file.
fn open_at(reporter: Reporter, path: &str) -> io::Result<Option<File>> {
    let metadata = match fs::metadata(reporter.rt(), path) {
        Ok(metadata) => metadata,
        Err(error) => return none_where_absent(reporter, path, error),
    };
    if !metadata.is_file() {
        let why = "this is no regular file, and counts as no repository";
        reporter.remark(path, &why);
        return Ok(None);
    }
    match File::open(reporter.rt(), path) {
        Ok(file) => Ok(Some(file)),
        Err(error) if error.kind() == ErrorKind::PermissionDenied => {
            let why = "this can't be read, and counts as no repository: permission denied";
            reporter.remark(path, &why);
            Ok(None)
        }
        Err(error) => none_where_absent(reporter, path, error),
    }
}

// None where the error says that there is no file; a loop of links is none.
fn none_where_absent(reporter: Reporter, path: &str, error: io::Error) -> io::Result<Option<File>> {
    match error.kind() {
        ErrorKind::NotFound => Ok(None),
        ErrorKind::FilesystemLoop => {
            let why = "this is a loop of links, and counts as no repository";
            reporter.remark(path, &why);
            Ok(None)
        }
        _ => {
            reporter.report(path, &error);
            Err(error)
        }
    }
}

impl Repos for FileRepos {
    ghost tells = { false };

    ghost repository = { λ _ _. None };

    ghost left = { λ _. [] };

    ghost faults = { λ repos. repos.faults };

    fn open(&mut self, did: &str) -> Result<bool, ReposFault> {
        self.opened = None;
        let Ok(path) = self.path(did) else {
            return Err(ReposFault::Memory);
        };
        match open_at(self.reporter, path.as_str()) {
            Ok(Some(file)) => {
                self.opened = Some(file);
                Ok(true)
            }
            Ok(None) => Ok(false),
            Err(_) => {
                self.faults = self.faults.saturating_add(1);
                Err(ReposFault::Failed)
            }
        }
    }

    fn read(&mut self, room: &mut [u8]) -> Result<usize, Failed> {
        let Some(file) = &mut self.opened else {
            return Ok(0);
        };
        match file.read(room) {
            Ok(count) => Ok(count),
            Err(error) => {
                self.reporter.report(self.folder.as_str(), &error);
                self.faults = self.faults.saturating_add(1);
                Err(Failed)
            }
        }
    }
}
