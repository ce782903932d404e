//! The messages of a tape, or of a host's feed, taken into the journal of two disks, from opening to the last line of the report.
#![tactic(auto)]

mod answering;
mod batching;
mod commands;
mod end;
mod group;
mod live;
mod run;
mod stream;
mod streaming;
mod tally;
mod taping;

pub use batching::Batches;
pub use commands::Takes;
pub use run::Run;
pub use stream::{OpenFeed, Stream};
pub use streaming::Streams;
pub use tally::Tally;
pub use taping::Tapes;
