//! Walks over what was kept of a CAR that came in pieces.

ghost use Rattle.std.specs.Prelude.{◌≡◌, ◌<◌, ◌||◌, is_some, IfOk, IfErr, Ok};
ghost use Rattle.std.specs.FinMap as map;
ghost use Rattle.at_cid.specs.declared.limits.TheConstants.{NUMBERS};
ghost use Rattle.at_cid.specs.Link.{IsNodeLink};
ghost use Rattle.at_cid.specs.Memory.{Gives};
ghost use Rattle.at_car.specs.Blocks.{BlockMap};
ghost use Rattle.at_car.specs.Finishing.{IsKeptOf};
ghost use Rattle.at_car.specs.Links.{has};
ghost use Rattle.mst_whole.specs.Counting.{fault_in, kept_fault_of, walked};
ghost use Rattle.mst_whole.specs.Walks.{cause_of, is_node_block, HasKeys, IsWalkFault, WalksExactly};

use crate::counting::{CountFault, count_all};
use crate::walking::WalkFault;
use at_car::{Kept, Sieve};
use at_cid::{Cid, Memory};
use mst_node::{NodeFault, read_node};
use std::alloc::Global;

/// Keeps the blocks that are nodes.
#[derive(Drop)]
pub struct NodeSieve {
    alloc: Global,
}

impl NodeSieve {
    /// A sieve that reads nodes with this allocator.
    pub fn new(alloc: Global) -> NodeSieve {
        NodeSieve { alloc }
    }
}

impl Sieve for NodeSieve {
    ghost use Rattle.mst_whole.specs.Walks.{is_node_block};

    ghost picks = { is_node_block };

    fn keeps(&self, block: &[u8]) -> Result<bool, Memory> {
        match read_node(self.alloc, block) {
            Ok(_) => Ok(true),
            Err(NodeFault::BadNode) => Ok(false),
            Err(NodeFault::Memory) => Err(Memory),
        }
    }
}

/// The fault at a link: its block isn't there, or is a bad node.
fn kept_fault(kept: &Kept, link: Cid) -> WalkFault
    ensures { result ≡ fault_in link
        (is_some (map.get kept.now.nodes link) || has kept.now.others link) }
{
    if kept.nodes.get(&link).is_some() || kept.others.contains(&link) {
        WalkFault::BadNode(link)
    } else {
        WalkFault::NoBlock(link)
    }
}

/// What stopped a count.
fn fault_of(kept: &Kept, fault: CountFault) -> WalkFault
    ensures { result ≡ kept_fault_of kept.now fault }
{
    match fault {
        CountFault::At(link) => kept_fault(kept, link),
        CountFault::Memory => WalkFault::Memory,
    }
}

fn walk_at(alloc: Global, kept: &Kept, root: Cid) -> Result<u64, WalkFault>
    ensures walked { (blocks : BlockMap) → IsKeptOf is_node_block blocks kept.now
        → Gives (λ n. n) cause_of result (walked blocks root) }
    ensures nodes { IfOk result (λ n. walked kept.now.nodes root ≡ Ok n) }
    ensures most { IfOk result (λ n. n < NUMBERS) }
{
    match count_all(alloc, &kept.nodes, root) {
        Ok(keys) => Ok(keys),
        Err(fault) => Err(fault_of(kept, fault)),
    }
}

/// What [`crate::walk`] answers on all the blocks of which this is kept by a [`NodeSieve`].
pub fn walk_kept(alloc: Global, kept: &Kept, root: &Cid) -> Result<u64, WalkFault>
    ensures whole { (blocks : BlockMap) → IsKeptOf is_node_block blocks kept.now
        → IsNodeLink root.now → IfOk result (HasKeys blocks root.now) }
    ensures fault { (blocks : BlockMap) → IsKeptOf is_node_block blocks kept.now
        → IfErr result (IsWalkFault blocks root.now) }
    ensures exact { (blocks : BlockMap) → IsKeptOf is_node_block blocks kept.now
        → WalksExactly blocks root.now result }
    ensures most { IfOk result (λ n. n < NUMBERS) }
{
    kept.nodes.ghost_linked();
    walk_at(alloc, kept, *root)
}
