//! Nodes with what is known below them.

ghost use Rattle.std.specs.Prelude.{◌≡◌};
ghost use Rattle.mst_view.specs.Layered.{stub_of};

use at_cid::Cid;
use mst_list::KeyBytes;
use mst_node::Keyed;
use std::marker::Model;

/// A node (Repository specification, MST structure), seen in contracts as its layer and the list of what it holds.
///
/// A node is kept with its link where that is known, so that a subtree that nobody touched is never encoded again.
#[cycle(branch)]
#[derive(Debug, Drop)]
pub struct Branch {
    /// The height of the node's keys.
    pub layer: u8,
    /// The link of the node's block, where it is known.
    pub link: Option<Cid>,
    /// What lies before the first key.
    pub first: Below,
    /// The keys, each with what lies behind it.
    pub rest: Rest,
}

/// What lies below a node between two of its keys.
#[cycle(branch)]
#[derive(Debug, Drop)]
pub enum Below {
    /// Nothing.
    Empty,
    /// A subtree that is known by its link alone.
    Hole(Cid),
    /// A subtree that is at hand.
    Tree(Box<Branch>),
}

/// A key of a node with the link of its record, and what lies between it and the next key.
#[cycle(branch)]
#[derive(Debug, Drop)]
pub struct Part {
    pub key: KeyBytes,
    pub value: Cid,
    pub below: Below,
}

/// The keys of a node in order.
pub type Rest = Vec<Part>;

impl Model for Branch {
    ghost use Rattle.mst_view.specs.Value.{Layered};

    ghost Value = { Layered };

    ghost use Rattle.mst_view.specs.Layered.{layered, IsLayered};

    ghost view = { λ b. layered b.layer b.first b.rest.items };

    ghost invariant = { λ b. IsLayered b.layer b.link b.first b.rest.items };

    ghost size = { λ v. v.layer };

    ghost use Rattle.std.proofs.Common.{arith};
    ghost use Rattle.mst_view.specs.Falls.{below_falls, parts_fall};

    ghost size_decreases = { λ b h. Prim.omega (arith, below_falls b.layer b.first h.first_lies, parts_fall b.layer b.rest.items h.all_at) };
}

impl Below {
    /// What is known of a subtree by its link alone, where there is one.
    #[inline(always)]
    fn of(link: Option<Cid>) -> Below
        ensures { result ≡ stub_of link }
    {
        match link {
            None => Below::Empty,
            Some(link) => Below::Hole(link),
        }
    }
}

impl Keyed for Part {
    ghost use Rattle.mst_view.specs.Layered.{part_entry, is_bare};

    ghost entry = { part_entry };

    ghost is_bare = { is_bare };

    #[inline(always)]
    fn of(key: KeyBytes, value: Cid, right: Option<Cid>) -> Part {
        let below = Below::of(right);
        Part { key, value, below }
    }

    #[inline(always)]
    fn key(&self) -> &KeyBytes {
        &self.key
    }

    #[inline(always)]
    fn hangs(&self) -> bool {
        match self.below {
            Below::Empty => false,
            Below::Hole(_) => true,
            Below::Tree(_) => true,
        }
    }
}
