//! What is known of an account's repository.

use at_event::Head;
use at_syntax::Tid;

/// What is known of a repository.
#[derive(Clone, Copy, Debug, PartialEq, Eq)]
pub enum Repo {
    /// Nothing.
    Missing,
    /// Its newest commit.
    Good(Head),
    /// Commits were lost behind this revision, if there was one.
    Lost(Option<Tid>),
}
