//! The events of a store, read back from its disk.
#![tactic(auto)]

mod buffer;
mod finding;
mod laws;
mod reading;
mod showing;

pub use laws::events_are_shown_as_read;
pub use reading::{EventReader, events};
