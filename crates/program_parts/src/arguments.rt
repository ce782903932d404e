//! The words that a program was called with.

use std::env;
use std::io::ErrorKind;

/// Why the words can't be used.
#[derive(Clone, Copy, Debug, PartialEq, Eq)]
pub enum ArgumentsFault {
    /// One of them is no UTF-8 text.
    NotText,
    /// Memory ran out.
    Memory,
}

/// The words after the program's name.
pub fn read_arguments(rt: &HostRuntime) -> Result<Vec<String>, ArgumentsFault> {
    let given = match env::args(rt) {
        Ok(given) => given,
        Err(error) if error.kind() == ErrorKind::OutOfMemory => {
            return Err(ArgumentsFault::Memory);
        }
        Err(_) => return Err(ArgumentsFault::NotText),
    };
    let mut words = Vec::new(rt.alloc());
    for word in given.skip(1) {
        if words.push(word).is_err() {
            return Err(ArgumentsFault::Memory);
        }
    }
    Ok(words)
}
