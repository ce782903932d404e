//! The commands that only read the journal of two disks and give out what it holds: the events that
//! guests are sent, at a door or as bytes, the operations of commits as lines, and replies to
//! requests.
#![tactic(auto)]

mod accepting;
mod answering;
mod commands;
mod line;
mod picking;
mod replaying;
mod request;
mod round;
mod serving;
mod session;
mod status;
mod writing;

pub use commands::Reads;
pub use session::Session;
