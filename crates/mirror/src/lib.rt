//! A mirror of a relay's stream: the whole map of each account, as the messages of the stream lead to it.
#![tactic(auto)]

mod apart;
mod committing;
mod edits;
mod fault;
mod holding;
mod keeping;
mod placed;
mod root;
mod step;
mod syncing;

pub use fault::MirrorFault;
pub use holding::Holding;
pub use keeping::Mirror;
pub use root::whole_root;
pub use step::Step;
pub use whole_map::WholeMap;
