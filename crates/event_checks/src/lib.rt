//! What the checks of commits, of syncs and of whole repositories have in common: the order of the refusals that an event
//! shows by itself, and the commit object that its blocks hold.
#![tactic(auto)]

mod fault;
mod limits;
mod opening;
mod stale;

pub use fault::OpenFault;
pub use limits::{MOST_COMMIT_BYTES, MOST_OPS, MOST_SYNC_BYTES};
pub use opening::{CommitBlock, find_commit, find_data};
pub use stale::is_stale;
