//! What holds of every relay after a relay, one that takes what another serves as messages of a host: it accepts every event of an
//! account whose whole history it is shown. Its judges say yes to everything, and the rows of the first relay are given: each is
//! what a message or a command comes to after the rows before it. Each law is the contract of a function without a body.
#![tactic(auto)]

mod laws;

pub use laws::{
    events_are_read, operated_are_given, own_journals_are_given, premises_are_needed,
    relays_follow, relays_go_on, runs_follow, steps_are_given, synced_are_given,
    trusting_steps_show,
};
