//! The commands on the journal of two disks that an operator gives, each from opening to its last line.
#![tactic(auto)]

mod answering;
mod commands;
mod cut_line;

pub use commands::Commands;
