//! The laws of trees: what a link says of maps. Each is the contract of a function without a body.
#![tactic(auto)]

mod laws;

pub use laws::{
    complete_link_law, covering_law, fault_law, filling_law, one_root_law, one_view_law,
    replay_law, sound_link_law,
};
