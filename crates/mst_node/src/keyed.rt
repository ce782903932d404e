//! What the entries of a node are read into.

ghost use Rattle.std.specs.Prelude.{◌≡◌, Bool, true, is_some};
ghost use Rattle.mst_node.specs.Nodes.{entry_with};
ghost use Rattle.mst_node.specs.declared.entry.Entry.{Entry};

use at_cid::Cid;
use mst_list::KeyBytes;

/// A key of a node with the link of its record, and what is known of the subtree to its right: its link at least.
pub trait Keyed {
    /// The entry that is kept.
    ghost entry: { Self → Entry };

    /// Whether no more than the link to the right is known.
    ghost is_bare: { Self → Bool };

    /// Keeps an entry.
    fn of(key: KeyBytes, value: Cid, right: Option<Cid>) -> Self
        ensures entry { entry result ≡ entry_with key value right }
        ensures bare { is_bare result ≡ true };

    /// The entry's key.
    fn key(&self) -> &KeyBytes
        ensures { result.now ≡ (entry self.now).key };

    /// Whether there is a subtree to its right.
    fn hangs(&self) -> bool
        ensures { result ≡ is_some (entry self.now).right };
}
