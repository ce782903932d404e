//! A message of a host.

use at_cid::{Octets, Words};

/// A message of a host.
#[derive(Debug, Drop)]
pub struct Message {
    /// The host.
    pub host: Words,
    /// What it sent.
    pub bytes: Octets,
}

/// A message that is lent.
#[derive(Clone, Copy)]
pub(crate) struct MessageRef<'a> {
    pub host: &'a str,
    pub bytes: &'a [u8],
}
