//! Tapes: recorded messages of hosts, one record after another, read out of a source in pieces.
#![tactic(auto)]

mod fault;
mod front;
mod laws;
mod name;
mod record;
mod tape;
mod window;

pub use fault::TapeFault;
pub use laws::{cut_records_are_cut, more_bytes_show_the_same, one_answer, one_thing_is_shown};
pub use record::{LONGEST_RECORD, Record};
pub use tape::Tape;
pub use window::ReadAhead;
