//! Cutting the journal of a store: what is left is written anew on the other disk of the pair.
#![tactic(auto)]

mod carrying;
mod comparing;
mod copying;
mod cutting;
mod rereading;
mod rewriting;

pub use cutting::{CutDone, cut};
