//! A trial of merges: what four hosts send is taken in two orders, and comes to the same accounts.
#![tactic(auto)]

mod merging;
mod summing;
mod trying;

pub use trying::{trial, trial_on};
