//! Whole repositories and `#sync` events, each checked by itself: a repository is read in pieces, and of its blocks only the
//! nodes and the commit object are held.
#![tactic(auto)]

mod fault;
mod found;
mod judging;
mod laws;
mod limits;
mod repository;
mod scanning;
mod syncing;

pub use event_checks::OpenFault;
pub use fault::RepoFault;
pub use found::Found;
pub use laws::{one_answer, some_answer};
pub use limits::MOST_REPOSITORY_BYTES;
pub use repository::check_repo;
pub use scanning::scan_repo;
pub use syncing::check_sync;
