//! The text of a table's file.

use crate::paths::{path_beside, path_in};
use crate::stamp::Stamp;
use at_cid::{Memory, cid_of};
use std::alloc::Global;
use std::fs::{self, File};
use std::io::{self, ErrorKind};

/// How often a table is read while it is replaced together with the file that has its digest.
const TRIES: usize = 3;

/// The text of the table at a path, and the stamp that its file had before it was read, unless the file
/// may have changed again under the same stamp. Where a file `PATH.sum` stands beside it, with the
/// table's length and digest, they have to be those of the text.
pub(crate) fn read_table(
    alloc: Global,
    rt: &HostRuntime,
    path: &str,
) -> io::Result<(String, Option<Stamp>)> {
    let Ok(sum_path) = path_beside(alloc, path, ".sum") else {
        return Err(io::Error::from(ErrorKind::OutOfMemory));
    };
    for _ in 0..TRIES {
        let sum = read_if_there(alloc, rt, sum_path.as_str())?;
        let stamp = Stamp::at(rt, path)?;
        let is_young = stamp.is_young(rt);
        let text = io::read_to_string(alloc, File::open(rt, path)?)?;
        match sum {
            Some(sum) if !is_sum_of(alloc, sum.as_str(), text.as_bytes())? => {}
            _ if is_young => return Ok((text, None)),
            _ => return Ok((text, Some(stamp))),
        }
    }
    Err(io::Error::other("its length and digest are not those of its .sum file"))
}

// The text of a file that may be missing.
fn read_if_there(alloc: Global, rt: &HostRuntime, path: &str) -> io::Result<Option<String>> {
    match Stamp::at(rt, path) {
        Ok(_) => {}
        Err(error) if error.kind() == ErrorKind::NotFound => return Ok(None),
        Err(error) => return Err(error),
    }
    match File::open(rt, path) {
        Ok(file) => Ok(Some(io::read_to_string(alloc, file)?)),
        Err(error) if error.kind() == ErrorKind::NotFound => Ok(None),
        Err(error) => Err(error),
    }
}

// Whether a sum is the line of these bytes: their number, and their SHA-256 digest in lower case.
fn is_sum_of(alloc: Global, sum: &str, bytes: &[u8]) -> io::Result<bool> {
    let mut line = format!(in alloc; "{} ", bytes.len())?;
    for byte in cid_of(bytes).digest() {
        for digit in [byte >> 4, byte & 15] {
            line.push(char::from_digit(u32::from(digit), 16).unwrap_or('-'))?;
        }
    }
    line.push('\n')?;
    Ok(sum == line.as_str())
}

/// Whether a table of these names in a folder has a line that names the host as a home.
pub fn names_host(
    alloc: Global,
    rt: &HostRuntime,
    folder: &str,
    tables: &[&str],
    host: &str,
) -> Result<bool, Memory> {
    for name in tables {
        let path = path_in(alloc, folder, name)?;
        if let Ok(text) = fs::read_to_string(rt, path.as_str()) {
            if text.lines().any(|line| is_home_line(line, host)) {
                return Ok(true);
            }
        }
    }
    Ok(false)
}

// Whether the line names this host as the home of a DID.
fn is_home_line(line: &str, host: &str) -> bool {
    let Some(rest) = line.strip_prefix("home ") else {
        return false;
    };
    match rest.split_once(' ') {
        Some((_, home)) => home == host,
        None => false,
    }
}
