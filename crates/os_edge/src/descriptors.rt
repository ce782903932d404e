//! The standard descriptors.

use std::fs::{File, OpenOptions};
use std::io;
use std::os::fd::{AsRawFd, IntoRawFd};

/// Which of the standard streams were closed when the run began.
#[derive(Clone, Copy, Debug, PartialEq, Eq)]
pub struct Closed {
    pub input: bool,
    pub output: bool,
}

/// Sees that the descriptors 0 to 2 are taken, by `/dev/null` where one was closed, and returns which
/// were. Without that a file that the run opens would get such a number, and what is written to a
/// standard stream would go into it. To be called before any other file is opened.
pub fn hold_descriptors(rt: &HostRuntime) -> io::Result<Closed> {
    let mut closed = Closed {
        input: false,
        output: false,
    };
    for _ in 0..3 {
        let file = placeholder(rt)?;
        match file.as_raw_fd() {
            0 => closed.input = true,
            1 => closed.output = true,
            2 => {}
            _ => return Ok(closed),
        }
        let _held = file.into_raw_fd();
    }
    Ok(closed)
}

// A file that gives nothing and keeps nothing. The root folder, which can be neither read nor written
// as a file, stands for it on a system without devices.
fn placeholder(rt: &HostRuntime) -> io::Result<File> {
    let mut how = OpenOptions::new();
    how.read(true).write(true);
    match how.open(rt, "/dev/null") {
        Ok(file) => Ok(file),
        Err(_) => File::open(rt, "/"),
    }
}
