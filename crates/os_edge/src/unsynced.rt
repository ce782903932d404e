//! What was written before a sync that failed.
//!
//! Linux reports a failed sync once, and counts the pages as written: the next sync succeeds, whether
//! or not they are on the disk. So a run whose sync failed leaves a file beside the one that failed,
//! and the next run puts all bytes of that one there again before it goes on.

use crate::JournalFile;
use crate::paths::path_beside;
use std::alloc::Global;
use std::fs::{self, File, OpenOptions};
use std::io;
use std::os::unix::fs::FileExt;

/// The ending of the file that a failed sync leaves.
const ENDING: &str = ".unsynced";

/// The bytes that are put again at a time.
const PIECE: usize = 1 << 16;

/// Leaves a file that says that a sync of this one failed. Where that can't be made either, the next
/// run reads what the disk has.
pub(crate) fn mark_failed_sync(rt: &HostRuntime, path: &str) {
    if let Ok(mark) = path_beside(rt.alloc(), path, ENDING) {
        let _ = File::create(rt, mark.as_str());
    }
}

/// Writes all bytes of a file again, where a sync of it failed, and syncs it. A run that only reads
/// does so too, since its content stays the same.
pub(crate) fn renew_after_failed_sync(
    alloc: Global,
    rt: &HostRuntime,
    file: &JournalFile,
) -> io::Result<()> {
    if file.on_disk().is_none() {
        return Ok(());
    }
    let Ok(mark) = path_beside(alloc, file.path(), ENDING) else {
        return Err(io::Error::from(io::ErrorKind::OutOfMemory));
    };
    if !fs::exists(rt, mark.as_str())? {
        return Ok(());
    }
    let mut how = OpenOptions::new();
    how.read(true).write(true);
    let Ok(open) = how.open(rt, file.path()) else {
        return Err(io::Error::other(
            "a sync of it failed, and it can't be opened to write it again",
        ));
    };
    write_again(alloc, &open)?;
    open.sync_all()?;
    fs::remove_file(rt, mark.as_str())
}

// Writes each piece of a file over itself.
fn write_again(alloc: Global, file: &File) -> io::Result<()> {
    let len = file.metadata()?.len();
    let mut room = vec![in alloc; 0; PIECE]?;
    for place in (0..len).step_by(PIECE) {
        let count = usize::try_from(len - place).unwrap_or(PIECE).min(PIECE);
        room.resize(count, 0)?;
        file.read_exact_at(room.as_mut_slice(), place)?;
        file.write_all_at(room.as_slice(), place)?;
    }
    Ok(())
}
