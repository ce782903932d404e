//! Made histories: honest hosts' messages, drawn by a number, for trials and measurements.
#![tactic(auto)]

mod account;
mod covering;
mod drafting;
mod draws;
mod fault;
mod history;
mod laws;
mod messages;
mod past;
mod paths;
mod records;
mod settling;

pub use fault::GenFault;
pub use history::{History, MOST_MESSAGES, did_of, host_of, make};
pub use laws::hosts_tell_of_their_own;
