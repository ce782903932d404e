//! Trees of a repository in which subtrees that aren't at hand are holes: read from blocks, seen as lists with holes,
//! taken apart and put together, and their links.
#![tactic(auto)]

mod at_hand;
mod beginning;
mod branch;
mod copying;
mod hashing;
mod holes;
mod laws;
mod link;
mod listing;
mod reading;
mod stub_tree;
mod viewing;

pub use branch::{Below, Branch, Part, Rest};
pub use laws::{view_law, view_size_law};
pub use stub_tree::StubTree;
pub use viewing::{ViewFault, view};
