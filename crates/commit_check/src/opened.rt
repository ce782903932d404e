//! A commit event whose blocks were read.

use at_car::Car;
use at_cid::Octets;
use at_event::Head;

/// What the blocks of a commit event hold.
#[derive(Drop)]
pub struct Opened {
    /// The commit's revision, its `data` and its link.
    pub head: Head,
    /// The SHA-256 that was signed.
    pub digest: [u8; 32],
    /// The signature, unread.
    pub sig: Octets,
    /// The CAR.
    pub car: Car,
}
