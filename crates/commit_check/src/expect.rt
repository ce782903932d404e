//! What is expected of a commit's account.

use at_event::Head;

/// What the account of a commit holds before it.
#[derive(Clone, Copy, Debug, PartialEq, Eq)]
pub enum Expect {
    /// No commit yet: the empty tree.
    Start,
    /// The last accepted commit.
    After(Head),
    /// A state that is no longer known.
    Lost,
}
