//! Journals that are cut at a number: what cutting leaves, and what holds of all cuts. Each law is
//! the contract of a function without a body.
#![tactic(auto)]

mod laws;

pub use laws::{
    cuts_are_journals, cuts_of_cuts, cuts_say_the_same, cuts_stay_sound, fronts_are_found,
    lives_keep, premises_are_needed,
};
