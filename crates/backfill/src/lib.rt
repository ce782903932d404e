//! What is sent to who asks for the events behind a cursor: the cursor that a target names, and the messages that follow from
//! it, to a guest at a door or onto an output.
#![tactic(auto)]

mod following;
mod gathered;
mod giving;
mod laws;
mod notices;
mod replay_fault;
mod replaying;
mod serve_fault;
mod serving;
mod standing;
mod stream_place;
mod target;
mod target_fault;

pub use giving::give_next;
pub use laws::greater_follow;
pub use notices::{future_cursor, outdated_cursor};
pub use replay_fault::ReplayFault;
pub use replaying::replay;
pub use serve_fault::ServeFault;
pub use serving::{Served, serve};
pub use standing::{Standing, standing_of};
pub use stream_place::StreamPlace;
pub use target::{LONGEST_CURSOR, cursor_of};
pub use target_fault::TargetFault;
