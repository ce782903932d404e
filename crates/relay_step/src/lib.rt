//! One message decided, or one operator's command: what has to be known is asked of judges, a clock and repositories, one
//! question at a time, and what it comes to is a row, or the reason why there is none. No disk is touched.
#![tactic(auto)]

mod asked;
mod asking;
mod command;
mod decided;
mod deciding;
mod fault;
mod fetching;
mod laws;
mod losing;
mod operating;
mod outside;
mod reading;
mod syncing;
mod taking;

pub use asked::Asked;
pub use command::CommandAnswer;
pub use decided::{Decided, Skipped};
pub use deciding::decide_message;
pub use fault::StepFault;
pub use laws::{steps_join, steps_run};
pub use operating::operate;
pub use syncing::sync_now;
