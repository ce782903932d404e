//! What an accepted commit did.

use at_cid::Cid;

/// A commit that was accepted by itself.
#[derive(Clone, Copy, Debug, PartialEq, Eq)]
pub struct Checked {
    /// The root that its operations start from.
    pub from: Cid,
    /// The root that they lead to, its `data`.
    pub to: Cid,
    /// How many operations there are.
    pub ops: u32,
}
