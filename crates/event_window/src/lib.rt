//! Where the events of a journal stand in its log, by their numbers, and who gives them out.
#![tactic(auto)]

mod events;
mod fault;
mod place;
mod window;

pub use events::Events;
pub use fault::EventsFault;
pub use place::Place;
pub use window::Window;
