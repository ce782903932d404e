//! The hosts that the rows of a journal name, in first-seen order, each with its cursor.
#![tactic(auto)]

mod hosts;
mod laws;
mod table;

pub use hosts::Hosts;
pub use laws::{hosts_join, hosts_tell_cursors};
