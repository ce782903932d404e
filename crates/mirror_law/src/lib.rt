//! The laws of mirrors: what a mirror of the stream of a journal holds. Each is the contract of a
//! function without a body.
#![tactic(auto)]

mod laws;

pub use laws::{
    chains_end_open, mirrors_hold_chains, mirrors_hold_heads, one_is_held, streams_are_sent,
    written_are_sent,
};
