//! What the relay reads from and writes to, and the clock that it asks: traits that say what each
//! object holds, and forms in memory that tell it. The forms over the machine, which tell nothing,
//! stand in `os_edge` and `ws_edge`.
#![tactic(auto)]

mod clock;
mod copying;
mod door;
mod failed;
mod feed;
mod list_clock;
mod memory_door;
mod memory_feed;
mod memory_repos;
mod memory_sink;
mod memory_source;
mod memory_wire;
mod reading;
mod repos;
mod sink;
mod source;
mod wire;
mod writing;

pub use clock::Clock;
pub use door::{Door, DoorFault, Guest, Turn};
pub use failed::Failed;
pub use feed::{Feed, FeedFault, LONGEST_FEED_MESSAGE};
pub use list_clock::ListClock;
pub use memory_door::MemoryDoor;
pub use memory_feed::{MemoryFeed, Numbered};
pub use memory_repos::{MemoryRepos, Repository};
pub use memory_sink::MemorySink;
pub use memory_source::MemorySource;
pub use memory_wire::MemoryWire;
pub use reading::{ReadFault, read_to_end};
pub use repos::{Repos, ReposFault};
pub use sink::Sink;
pub use source::Source;
pub use wire::{Exchange, LONGEST_REQUEST, Wire, WireFault};
pub use writing::write_all;
