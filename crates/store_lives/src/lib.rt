//! What becomes of the journal of a store over the life of its machine: over calls, failed calls, cuts, openings, and crashes at
//! any moment of them. Each law is the contract of a function without a body.
#![tactic(auto)]

mod laws;

pub use laws::{answers_are_kept, answers_stay, later_journals_come};
