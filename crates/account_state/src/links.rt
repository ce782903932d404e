//! What is known of an account's repository, beside its revision.

use at_cid::Cid;

/// What is known of a repository, without its revision. Apart from it, it needs no room to align.
#[derive(Clone, Copy, Debug)]
pub enum Links {
    /// Nothing is known.
    Missing,
    /// The newest commit: its `data`, and its own link.
    Good(Cid, Cid),
    /// Commits were lost behind the revision.
    Lost,
    /// Commits were lost before there was a revision.
    LostAtStart,
}
