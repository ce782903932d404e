//! What shows that a file is another one than before.

use std::fs::{self, Metadata};
use std::io;
use std::os::unix::fs::MetadataExt;
use std::time::Clock;

/// The seconds in which a file may change again without another moment of change: the clocks of file
/// systems are coarse.
const YOUNG: i64 = 2;

/// Which file stands at a path, how long it is, and when it was changed.
#[derive(Clone, Copy, Debug, PartialEq, Eq)]
pub(crate) struct Stamp {
    device: u64,
    inode: u64,
    size: u64,
    seconds: i64,
    nanoseconds: i64,
}

impl Stamp {
    fn of(metadata: &Metadata) -> Stamp {
        Stamp {
            device: metadata.dev(),
            inode: metadata.ino(),
            size: metadata.len(),
            seconds: metadata.mtime(),
            nanoseconds: metadata.mtime_nsec(),
        }
    }

    /// The stamp of the regular file at a path.
    pub(crate) fn at(rt: &HostRuntime, path: &str) -> io::Result<Stamp> {
        let metadata = fs::metadata(rt, path)?;
        if !metadata.is_file() {
            return Err(io::Error::other("this is no regular file"));
        }
        Ok(Stamp::of(&metadata))
    }

    /// Whether the file may change once more without another stamp: so it may where its moment of
    /// change isn't some seconds ago.
    pub(crate) fn is_young(&self, rt: &HostRuntime) -> bool {
        match rt.since_1970() {
            Ok(now) => match i64::try_from(now.as_secs()) {
                Ok(now) => now.saturating_sub(self.seconds) < YOUNG,
                Err(_) => true,
            },
            Err(_) => true,
        }
    }
}
