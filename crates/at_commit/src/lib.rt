//! Commit objects: what a repository's commit block says, and the bytes that its signature covers.
#![tactic(auto)]

mod commit;
mod fault;
mod fields;
mod reading;
mod signing;

pub use commit::Commit;
pub use fault::CommitFault;
pub use reading::{LONGEST_BLOCK, read, read_data};
