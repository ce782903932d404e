//! One operation of a commit.

ghost use Rattle.std.specs.Prelude.{◌≡◌, ◌↔◌, IsTrue};
ghost use Rattle.mst_list.specs.Edits.{IsFormedOp};

use crate::item::is_key;
use at_cid::{Cid, Octets, ghost_link_or_none};

/// What a commit does to one key: a create has only `now`, a delete only `was`, and an update both.
#[derive(Debug, Drop, PartialEq, Eq)]
pub struct Op {
    pub key: Octets,
    pub was: Option<Cid>,
    pub now: Option<Cid>,
}

impl Op {
    /// Whether the key has 1 to [`MOST_KEY_BYTES`](crate::MOST_KEY_BYTES) bytes, and `was` or `now` is there.
    pub fn is_formed(&self) -> bool
        ensures { IsTrue result ↔ IsFormedOp self.entry.now }
    {
        ghost_link_or_none(&self.was);
        ghost_link_or_none(&self.now);
        is_key(self.key.as_slice()) && (self.was.is_some() || self.now.is_some())
    }
}
