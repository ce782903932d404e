//! Keeping a search tree low.

ghost use Rattle.std.specs.Prelude.{◌≡◌, ◌+◌, ◌<◌, ◌≤◌};
ghost use Rattle.account_state.specs.Shape.{IsSide, Settles};
ghost use Rattle.account_state.specs.Tree.{IsBalanced, node_entries, shape};

use crate::tree::{Link, Tree, TreeNode};
use std::mem;

/// A node whose left side may have come to stand on its level, with a left side that is lower: the first node of a left
/// side on its level goes before it. Takes no memory.
pub(crate) fn skew(at: u8, mut node: Box<TreeNode>) -> Box<TreeNode>
    requires left { IsSide at node.value.left }
    requires left_ends { node.value.left.right_level < at }
    requires right { IsSide at node.value.right }
    requires right_ends { node.value.right.right_level < at }
    ensures entries { node_entries result.value ≡ node_entries node.value }
    ensures left { IsSide at result.value.left }
    ensures lower { result.value.left.level + 1 ≡ at }
    ensures right { IsSide at result.value.right }
    ensures ends { result.value.right.right_level ≤ node.value.right.level }
{
    if node.left.level() != at {
        return node;
    }
    let Link::Fork(_, mut left) = mem::replace(&mut node.left, Tree::new()).open() else {
        unreachable!()
    };
    node.left = mem::replace(&mut left.right, Tree::new());
    left.right = Tree::close(Link::Fork(at, node));
    left
}

/// A node on whose level two more may stand to the right: of three in a row the middle one goes up. Takes no memory.
pub(crate) fn split(at: u8, mut node: Box<TreeNode>) -> Link
    requires left { IsSide at node.value.left }
    requires lower { node.value.left.level + 1 ≡ at }
    requires right { IsSide at node.value.right }
    requires level { at < 255 }
    ensures entries { (shape result).entries ≡ node_entries node.value }
    ensures balanced { IsBalanced result }
    ensures level { Settles at node.value.right.right_level (shape result) }
{
    if node.right.right_level() != at {
        return Link::Fork(at, node);
    }
    let Link::Fork(_, mut right) = mem::replace(&mut node.right, Tree::new()).open() else {
        unreachable!()
    };
    node.right = mem::replace(&mut right.left, Tree::new());
    right.left = Tree::close(Link::Fork(at, node));
    Link::Fork(at + 1, right)
}
