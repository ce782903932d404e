//! Walks of a whole tree: how many keys it has, or the first block at fault. No tree is built, and no block is copied.
#![tactic(auto)]

mod counting;
mod keeping;
mod walking;

pub use keeping::{NodeSieve, walk_kept};
pub use walking::{WalkFault, walk};
