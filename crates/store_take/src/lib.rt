//! What hosts send, taken into the journal of a store, each message with its row or none; operators' commands likewise; and the
//! lines of what is answered.
#![tactic(auto)]

mod adding;
mod batch;
mod commanding;
mod committing;
mod done;
mod fault;
mod gathering;
mod laws;
mod lines;
mod message;
mod outcome;
mod preparing;
mod taking;

pub use batch::Batch;
pub use commanding::{operate, sync_now};
pub use done::Done;
pub use laws::lines_are_the_reports;
pub use lines::{end_line, line};
pub use message::Message;
pub use outcome::{End, Fetch, Outcome};
pub use taking::{take, take_all};
