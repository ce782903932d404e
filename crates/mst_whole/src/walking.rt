//! Walks of a whole tree.

ghost use Rattle.std.specs.Prelude.{◌≡◌, ◌<◌, IfOk, IfErr};
ghost use Rattle.std.specs.FinMap as map;
ghost use Rattle.at_cid.specs.declared.limits.TheConstants.{NUMBERS};
ghost use Rattle.at_cid.specs.Link.{IsNodeLink};
ghost use Rattle.at_cid.specs.Memory.{Gives};
ghost use Rattle.mst_whole.specs.Counting.{fault_at, fault_of, walked};
ghost use Rattle.mst_whole.specs.Walks.{cause_of, HasKeys, IsWalkFault, WalksExactly};

use crate::counting::{CountFault, count_all};
use at_car::Blocks;
use at_cid::Cid;
use std::alloc::Global;
use thiserror::Error;

/// Why a tree isn't whole.
#[derive(Debug, Drop, Error)]
pub enum WalkFault {
    /// The first fault is that the block under this link isn't there.
    #[error("a block is missing")]
    NoBlock(Cid),
    /// The first fault is that the block under this link is no node, or may not stand at its place.
    #[error("a block is no node of the tree")]
    BadNode(Cid),
    /// Memory ran out, or the tree has `NUMBERS` keys or more.
    #[error("out of memory")]
    Memory,
}

/// How many keys the tree of the blocks has at a root, whose link is of kind Node. Nodes are visited parents first and from
/// left to right, and the first fault is named. (Repository specification, MST structure.)
///
/// It goes down at most 129 layers, reads each node that it visits once, and holds those of one path.
pub fn walk(alloc: Global, blocks: &Blocks, root: &Cid) -> Result<u64, WalkFault>
    requires { IsNodeLink root.now }
    ensures whole { IfOk result (HasKeys blocks.now root.now) }
    ensures fault { IfErr result (IsWalkFault blocks.now root.now) }
    ensures exact { WalksExactly blocks.now root.now result }
    ensures most { IfOk result (λ n. n < NUMBERS) }
{
    blocks.ghost_linked();
    walk_at(alloc, blocks, *root)
}

/// The fault at a link.
fn fault_at(blocks: &Blocks, link: Cid) -> WalkFault
    ensures { result ≡ fault_at link (map.get blocks.now link) }
{
    match blocks.get(&link) {
        Some(_) => WalkFault::BadNode(link),
        None => WalkFault::NoBlock(link),
    }
}

/// What stopped a count.
fn fault_of(blocks: &Blocks, fault: CountFault) -> WalkFault
    ensures { result ≡ fault_of blocks.now fault }
{
    match fault {
        CountFault::At(link) => fault_at(blocks, link),
        CountFault::Memory => WalkFault::Memory,
    }
}

fn walk_at(alloc: Global, blocks: &Blocks, root: Cid) -> Result<u64, WalkFault>
    ensures walked { Gives (λ n. n) cause_of result (walked blocks.now root) }
    ensures most { IfOk result (λ n. n < NUMBERS) }
{
    match count_all(alloc, blocks, root) {
        Ok(keys) => Ok(keys),
        Err(fault) => Err(fault_of(blocks, fault)),
    }
}
