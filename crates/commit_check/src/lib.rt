//! One commit checked whole: what its message shows by itself, and whether its blocks show the step from the former
//! root of its repository to its `data`.
#![tactic(auto)]

mod checked;
mod checking;
mod content;
mod edits;
mod expect;
mod fault;
mod fields;
mod laws;
mod leading;
mod linking;
mod opened;
mod opening;

pub use checked::Checked;
pub use checking::check;
pub use expect::Expect;
pub use fault::CheckFault;
pub use laws::{
    commits_are_decided, covered_leads, edits_are_formed, leading_replays, links_are_decided,
    refusals_are_unjudged, steps_are_decided,
};
pub use linking::link;
pub use opened::Opened;
pub use opening::open_commit;
