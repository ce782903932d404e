//! What is held of an account.

use at_syntax::Tid;
use whole_map::WholeMap;

/// What a mirror holds of an account.
#[derive(Debug, Drop)]
pub enum Holding {
    /// The map of its repository, under the revision that gave it; before any did, the empty map.
    Mapped(Option<Tid>, WholeMap),
    /// Nothing, until a `#sync` states the repository anew.
    Waiting,
}
