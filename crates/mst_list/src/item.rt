//! One item of a list.

ghost use Rattle.std.specs.Prelude.{◌≡◌, ◌↔◌, ◌≤◌, IfOk, IsTrue, length};
ghost use Rattle.at_cid.specs.Link.{IsBytes, IsLink, IsNodeLink};
ghost use Rattle.mst_list.specs.Lists.{IsKey, IsFormed};

use crate::key_bytes::KeyBytes;
use at_cid::{Cid, Kind, Memory, ghost_link};
use std::alloc::Global;

/// A key with the link of its record; or a hole, which is a subtree that is known by its link alone, with the layer of
/// its top node.
#[derive(Debug, Drop, PartialEq, Eq)]
pub enum Item {
    Key(KeyBytes, Cid),
    Hole(u8, Cid),
}

/// The most bytes of a key (own limit: the longest path of a record).
pub const MOST_KEY_BYTES: usize = 830;

/// Whether a key has 1 to [`MOST_KEY_BYTES`] bytes.
pub(crate) fn is_key(key: &[u8]) -> bool
    requires { IsBytes key.now }
    ensures { IsTrue result ↔ IsKey key.now }
{
    !key.is_empty() && key.len() <= MOST_KEY_BYTES
}

impl Item {
    /// Whether a key has 1 to [`MOST_KEY_BYTES`] bytes, or a hole's link is of kind Node.
    pub fn is_formed(&self) -> bool
        ensures { IsTrue result ↔ IsFormed self.now }
    {
        match self {
            Item::Key(key, value) => {
                ghost_link(value);
                is_key(key.as_slice())
            }
            Item::Hole(_, link) => {
                ghost_link(link);
                link.kind() == Kind::Node
            }
        }
    }

    /// The same item once more.
    pub fn try_clone(&self) -> Result<Item, Memory>
        ensures { IfOk result (λ made. made ≡ self.now) }
    {
        Ok(match self {
            Item::Key(key, value) => Item::Key(key.try_clone()?, *value),
            Item::Hole(layer, link) => Item::Hole(*layer, *link),
        })
    }
}
