//! What a program says of itself.

use os_edge::{Reporter, WriterSink};
use relay_io::{Failed, write_all};

/// The texts that a program prints where it is asked for them.
#[derive(Clone, Copy)]
pub struct Texts {
    pub help: &'static str,
    pub version: &'static str,
}

impl Texts {
    /// The text that these words ask for, if they ask for one.
    pub fn asked(&self, words: &[String]) -> Option<&'static str> {
        let [word] = words else {
            return None;
        };
        match word.as_str() {
            "-h" | "help" | "--help" => Some(self.help),
            "version" | "--version" => Some(self.version),
            _ => None,
        }
    }
}

/// Writes a text to the standard output.
pub fn write_text(reporter: Reporter, text: &str) -> Result<(), Failed> {
    let mut out = WriterSink::new(reporter, "standard output", reporter.rt().stdout());
    write_all(&mut out, text.as_bytes())
}
