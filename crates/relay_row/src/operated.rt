//! An operator's commands on accounts.

use at_cid::{Octets, Words};

/// An operator's command on an account.
#[derive(Debug, Drop)]
pub struct Operated {
    /// The account.
    pub did: Words,
    /// Whether it is down from now on.
    pub down: bool,
    /// The number of the event by which this goes out.
    pub seq: u64,
    /// The event's message.
    pub message: Octets,
    /// When it was said.
    pub moment: Option<u64>,
}
