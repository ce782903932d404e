//! Lines that a relay prints: the pieces of which reports' lines are made, each added after what stands in a line (numbers in
//! decimal, links as their texts, and refusals with their numbers, names and details), and the lines that show an account and the
//! hosts of a journal.
#![tactic(auto)]

mod account;
mod hosts;
mod pieces;

pub use account::account_line;
pub use hosts::host_lines;
pub use pieces::{add_link, add_number, add_refusal};
