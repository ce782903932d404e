//! What a row sends out, seen where the row stands in the bytes of its body: nothing is copied, and no row is read whole.
#![tactic(auto)]

mod passing;
mod peeked;
mod peeking;

pub use passing::{behind_ended_row, behind_row};
pub use peeked::Peeked;
pub use peeking::peek;
