//! Rows of text files that are compared with what a library says of them: one row a line, `input = answer`; a line that
//! begins with `#` is a remark. Bytes are hexadecimal, `-` stands for none, and `<XX x N>` for N bytes XX.
#![tactic(auto)]

mod adding;
mod case;
mod reading;
mod runs;
mod saying;
mod suite;

pub use case::Case;
pub use suite::{Subject, run};
