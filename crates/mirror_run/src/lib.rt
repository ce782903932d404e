//! The command that mirrors a stream: what it reads, what it prints, and how it ends.
#![tactic(auto)]

mod end;
mod front;
mod laws;
mod line;
mod mirroring;
mod printing;
mod reader;
mod taking;

pub use laws::{journals_are_mirrored, journals_heads_are_printed, short_streams_are_taken};
pub use mirroring::mirror;
