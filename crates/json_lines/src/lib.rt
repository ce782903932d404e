//! The operations of commits as lines of JSON, one a line, which any tool reads.
#![tactic(auto)]

mod action;
mod line;
mod message;
mod writing;

pub use message::message_lines;
pub use writing::lines;
