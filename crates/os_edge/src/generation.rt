//! Which journal of a folder is the newest.

use crate::Reporter;
use crate::journal::{Unopened, sync_names};
use crate::paths::path_in;
use at_cid::{Memory, NUMBERS};
use std::alloc::Global;
use std::fs::{self, File};
use std::io::{self, ErrorKind, Read, Write};

/// The file that keeps the generation that the last cut of a folder reached: a decimal number and a
/// line feed.
const RECORD: &str = "generation";

/// The front of a log up to its format, which is 1 or 2.
const MARK: &[u8; 8] = b"\x01atrelay";

/// The length of the front of a log that was written by a cut: the mark, the format and, in 8 bytes,
/// the highest first, the generation.
const FRONT_LEN: u64 = 17;

/// The most bytes that the record may have: a number of 20 digits and a line feed.
const LONGEST_RECORD: u64 = 21;

// The generation that the front of a log has, or none where this is the front of no log.
fn generation_in(front: &[u8]) -> Option<u64> {
    let rest = front.strip_prefix(MARK.as_slice())?;
    match rest.split_first() {
        Some((1, _)) => Some(0),
        Some((2, bytes)) => {
            let bytes: [u8; 8] = bytes.first_chunk().copied()?;
            let generation = u64::from_be_bytes(bytes);
            if generation < NUMBERS {
                Some(generation)
            } else {
                None
            }
        }
        _ => None,
    }
}

// The first bytes of a file, at most this many; none where there is no file.
fn read_front(
    alloc: Global,
    rt: &HostRuntime,
    path: &str,
    most: u64,
) -> io::Result<Option<Vec<u8>>> {
    let file = match File::open(rt, path) {
        Ok(file) => file,
        Err(error) if error.kind() == ErrorKind::NotFound => return Ok(None),
        Err(error) => return Err(error),
    };
    let mut front = Vec::new(alloc);
    file.take(most).read_to_end(&mut front)?;
    Ok(Some(front))
}

// The generation of the log at a path, or none where there is no log.
fn generation_at(alloc: Global, rt: &HostRuntime, path: &str) -> io::Result<Option<u64>> {
    match read_front(alloc, rt, path, FRONT_LEN)? {
        Some(front) => Ok(generation_in(front.as_slice())),
        None => Ok(None),
    }
}

// The generation of the journal in a folder: the greatest one of a log that stands there.
fn newest_generation(
    alloc: Global,
    rt: &HostRuntime,
    folder: &str,
) -> Result<io::Result<u64>, Memory> {
    let log = path_in(alloc, folder, "log")?;
    let other = path_in(alloc, folder, "log.2")?;
    let found = match generation_at(alloc, rt, log.as_str()) {
        Ok(found) => found,
        Err(error) => return Ok(Err(error)),
    };
    let found_too = match generation_at(alloc, rt, other.as_str()) {
        Ok(found) => found,
        Err(error) => return Ok(Err(error)),
    };
    Ok(Ok(found.unwrap_or(0).max(found_too.unwrap_or(0))))
}

// The generation that is on record, which is 0 where there is no record; none where it is no number.
fn recorded_generation(alloc: Global, rt: &HostRuntime, path: &str) -> io::Result<Option<u64>> {
    let Some(front) = read_front(alloc, rt, path, LONGEST_RECORD)? else {
        return Ok(Some(0));
    };
    let Ok(text) = std::str::from_utf8(front.as_slice()) else {
        return Ok(None);
    };
    match text.strip_suffix('\n') {
        Some(number) => Ok(number.parse::<u64>().ok()),
        None => Ok(None),
    }
}

/// Whether the journal in a folder is older than the one that the last cut wrote there, which is
/// reported: numbers that were given since then would be given again.
pub(crate) fn is_behind(alloc: Global, reporter: Reporter, folder: &str) -> Result<bool, Unopened> {
    let path = path_in(alloc, folder, RECORD)?;
    let recorded = match recorded_generation(alloc, reporter.rt(), path.as_str()) {
        Ok(Some(generation)) => generation,
        Ok(None) => {
            reporter.report(path.as_str(), &"this is no number and a line feed");
            return Err(Unopened::Disk);
        }
        Err(error) => {
            reporter.report(path.as_str(), &error);
            return Err(Unopened::Disk);
        }
    };
    let newest = match newest_generation(alloc, reporter.rt(), folder)? {
        Ok(generation) => generation,
        Err(error) => {
            reporter.report(folder, &error);
            return Err(Unopened::Disk);
        }
    };
    if newest >= recorded {
        return Ok(false);
    }
    let why = format!(in alloc;
        "its journal has generation {newest}, and the last cut reached {recorded}: put the newer log back (or remove {path} to go on with the older one, whose numbers would be given again)"
    );
    match why {
        Ok(why) => reporter.report(folder, &why.as_str()),
        Err(_) => return Err(Unopened::Memory),
    }
    Ok(true)
}

/// Puts the generation that a cut has reached on record. Where that fails, it is reported.
pub fn record_generation(alloc: Global, reporter: Reporter, folder: &str) -> Result<(), Unopened> {
    let path = path_in(alloc, folder, RECORD)?;
    let fresh = path_in(alloc, folder, "generation.new")?;
    let newest = match newest_generation(alloc, reporter.rt(), folder)? {
        Ok(generation) => generation,
        Err(error) => {
            reporter.report(folder, &error);
            return Err(Unopened::Disk);
        }
    };
    let Ok(text) = format!(in alloc; "{newest}\n") else {
        return Err(Unopened::Memory);
    };
    let recorded = replace(
        reporter.rt(),
        folder,
        fresh.as_str(),
        path.as_str(),
        text.as_bytes(),
    );
    if let Err(error) = recorded {
        reporter.report(path.as_str(), &error);
        return Err(Unopened::Disk);
    }
    Ok(())
}

// Writes a file of a folder anew, so that a crash leaves the former or the new one.
fn replace(
    rt: &HostRuntime,
    folder: &str,
    fresh: &str,
    path: &str,
    content: &[u8],
) -> io::Result<()> {
    let mut file = File::create(rt, fresh)?;
    file.write_all(content)?;
    file.sync_all()?;
    fs::rename(rt, fresh, path)?;
    sync_names(rt, folder)
}
