//! What blocks show of a tree, and walks of whole trees.

ghost use Rattle.std.specs.Prelude.{IsTrue};
ghost use Rattle.at_cid.specs.Link.{IsNodeLink};

use crate::blocks::{blocks_of, kept_of};
use crate::undoing::say_items;
use at_car::{Blocks, write};
use at_cid::{Cid, Kind};
use mst_view::{StubTree, ViewFault, view};
use mst_whole::{WalkFault, walk, walk_kept};
use vector_lines::Case;

/// Whether a link is of kind Node.
pub fn is_node_link(link: &Cid) -> bool
    ensures { IsTrue result → IsNodeLink link.now }
{
    link.as_bytes();
    link.kind() == Kind::Node
}

/// Answers `ROOT ; BLOCKS = view ok ITEMS, or the fault, and then walk ok COUNT, or the fault`: what is seen of blocks at a root,
/// and how many keys the whole tree has, which is the same over what is kept of their CAR.
pub fn viewed(case: &mut Case<'_>) {
    let root = case.link(" ; ");
    let blocks = blocks_of(case, ",");
    if is_node_link(&root) {
        case.say("view ");
        match view(case.alloc, &blocks, &root) {
            Ok(tree) => say_tree(case, &tree),
            Err(fault) => say_view_fault(case, fault),
        }
        case.say(" ; walk ");
        say_walk(case, walk(case.alloc, &blocks, &root));
        walk_again(case, &blocks, &root);
    }
}

// Answers the items of a copy of a tree.
fn say_tree(case: &mut Case<'_>, tree: &StubTree) {
    if let Some(copy) = case.gave(tree.try_clone(case.alloc)) {
        if let Some(list) = case.gave(copy.list(case.alloc)) {
            case.say("ok ");
            say_items(case, list.as_slice());
        }
    }
}

/// Answers a fault with the link of its block.
pub fn say_view_fault(case: &mut Case<'_>, fault: ViewFault) {
    match fault {
        ViewFault::NoBlock(link) => say_fault(case, "NoBlock(", &link),
        ViewFault::BadNode(link) => say_fault(case, "BadNode(", &link),
        ViewFault::Memory => case.say("Memory"),
    }
}

fn say_fault(case: &mut Case<'_>, name: &str, link: &Cid) {
    case.say(name);
    case.say_link(link);
    case.say(")");
}

fn say_walk(case: &mut Case<'_>, ended: Result<u64, WalkFault>) {
    match ended {
        Ok(keys) => {
            case.say("ok ");
            case.say_number(keys);
        }
        Err(fault) => say_walk_fault(case, fault),
    }
}

fn say_walk_fault(case: &mut Case<'_>, fault: WalkFault) {
    match fault {
        WalkFault::NoBlock(link) => say_fault(case, "NoBlock(", &link),
        WalkFault::BadNode(link) => say_fault(case, "BadNode(", &link),
        WalkFault::Memory => case.say("Memory"),
    }
}

// Walks over what is kept of the CAR of blocks, which has to be there as often as over the blocks.
fn walk_again(case: &mut Case<'_>, blocks: &Blocks, root: &Cid)
    requires { IsNodeLink root.now }
{
    if let Some(car) = case.gave(write(case.alloc, root, blocks)) {
        if let Some(kept) = case.gave(kept_of(case.alloc, car.as_slice())) {
            case.say(match walk_kept(case.alloc, &kept, root) {
                Ok(_) => " ; kept ok",
                Err(WalkFault::Memory) => " ; Memory",
                Err(_) => " ; kept not",
            });
        }
    }
}
