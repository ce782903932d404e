//! The relay's journal on a pair of disks: the store that is opened on it, and what it knows of it.
#![tactic(auto)]

mod applying;
mod bodies;
mod fault;
mod laws;
mod limits;
mod loading;
mod opening;
mod pending;
mod store;

pub use applying::learn_row;
pub use bodies::read_body;
pub use fault::StoreFault;
pub use laws::{faults_are_no_journals, faults_have_one_place, pairs_have_one_journal};
pub use limits::LONGEST;
pub use pending::{Pending, list_front, list_front_len};
pub use store::Store;
