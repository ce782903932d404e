//! What a command on the journal of two disks is handed, as one value; how a command ends; and what it makes of the journal.
#![tactic(auto)]

mod commanding;
mod cutting;
mod opening;
mod outside;
mod pair;
mod seen;
mod status;
mod taking;

pub use outside::Outside;
pub use pair::Pair;
pub use relay_step::Asked;
pub use seen::Seen;
pub use status::Status;
