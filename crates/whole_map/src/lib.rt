//! The map of a whole repository, in pieces of few entries, so that an operation of a commit moves one piece.
#![tactic(auto)]

mod piece;
mod pieces;
mod playing;
mod searching;
mod whole_map;

pub use piece::Piece;
pub use whole_map::WholeMap;
