//! Trees in which subtrees may be holes.

ghost use Rattle.std.specs.Prelude.{◌≡◌, ◌≤◌, IfOk, IfSome};
ghost use Rattle.mst_list.specs.declared.limits.TheConstants.{MOST_HEIGHT};
ghost use Rattle.mst_node.specs.Trees.{root};
ghost use Rattle.mst_view.specs.StubTree.{top_items, IsTop};

use crate::branch::Branch;
use crate::copying::copy_branch;
use crate::listing::list_branch;
use at_cid::{Cid, Memory};
use mst_list::ItemList;
use mst_node::empty_root;
use std::alloc::Global;
use std::marker::Model;

/// The tree of a well-laid list with holes, seen in contracts as that list.
#[derive(Debug, Drop)]
pub struct StubTree {
    top: Option<Branch>,
}

impl Model for StubTree {
    ghost use Rattle.std.specs.Prelude.{List};
    ghost use Rattle.mst_list.specs.declared.item.Item.{Item};

    ghost Value = { List Item };

    ghost use Rattle.mst_view.specs.StubTree.{top_items, IsTop};

    ghost view = { λ a. top_items a.top };

    ghost invariant = { λ a. IsTop a.top };
}

impl StubTree {
    /// The top node, which has a key and stands at a layer of at most [`MOST_HEIGHT`](mst_list::MOST_HEIGHT). The tree of the empty list has none. Takes no
    /// memory.
    pub fn into_top(self) -> Option<Branch>
        ensures items { top_items result ≡ self }
        ensures is_top { IsTop result }
        ensures layer { IfSome result (λ top. top.layer ≤ MOST_HEIGHT) }
    {
        self.top
    }

    /// The tree under a top node. Takes no memory.
    pub fn from_top(top: Option<Branch>) -> StubTree
        requires { IsTop top }
        ensures { result ≡ top_items top }
    {
        StubTree { top }
    }

    /// The link of the top node's block, which is the root of the list; that of the node with neither entry nor link
    /// where the list is empty. Only nodes whose link isn't known are encoded.
    pub fn top_link(&self, alloc: Global) -> Result<Cid, Memory>
        ensures { IfOk result (λ link. link ≡ root self.now) }
    {
        match &self.top {
            Some(top) => top.link_of(alloc),
            None => Ok(empty_root()),
        }
    }

    /// The list, with copies of its keys.
    pub fn list(&self, alloc: Global) -> Result<ItemList, Memory>
        ensures { IfOk result (λ list. list ≡ self.now) }
    {
        let mut list = ItemList::new(alloc);
        if let Some(top) = &self.top {
            list_branch(top, &mut list)?;
        }
        Ok(list)
    }

    /// The same tree once more.
    pub fn try_clone(&self, alloc: Global) -> Result<StubTree, Memory>
        ensures { IfOk result (λ made. made ≡ self.now) }
    {
        match &self.top {
            None => Ok(StubTree { top: None }),
            Some(top) => {
                let top = copy_branch(alloc, top)?;
                Ok(StubTree { top: Some(top) })
            }
        }
    }
}
