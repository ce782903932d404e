//! What became of the fetch of a whole repository.

use at_cid::Octets;
use at_event::Head;

/// A whole repository that was fetched, and the `#sync` event by which it goes out.
#[derive(Debug, Drop)]
pub struct Whole {
    /// The event's number.
    pub seq: u64,
    /// The head that was found.
    pub head: Head,
    /// How many records there are.
    pub records: u64,
    /// The event's message.
    pub message: Octets,
}

/// What became of the fetch of a repository.
#[derive(Debug, Drop)]
pub enum Fetched {
    /// None was asked for.
    NotAsked,
    /// There is no repository.
    Absent,
    /// The repository was refused, with this number.
    Refused(u8),
    /// The repository was taken over.
    Whole(Whole),
}
