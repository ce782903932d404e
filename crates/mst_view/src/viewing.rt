//! Views: the trees that blocks hold.

ghost use Rattle.std.specs.Prelude.{◌≡◌, ℕ, List, IfOk, IfErr, Some, true};
ghost use Rattle.std.specs.List.{list_all};
ghost use Rattle.std.specs.FinMap as map;
ghost use Rattle.at_cid.specs.Link.{IsNodeLink};
ghost use Rattle.at_car.specs.Blocks.{AreLinked};
ghost use Rattle.mst_node.specs.Trees.{IsView};
ghost use Rattle.mst_node.specs.Reading.{node_of};
ghost use Rattle.mst_node.specs.Fits.{top_fits};
ghost use Rattle.mst_node.specs.NodeFaults.{layer_of};
ghost use Rattle.mst_view.specs.Layered.{entries_of, is_bare};
ghost use Rattle.mst_view.specs.ViewFault.{IsViewFault, HasNoView, fault_of};

use crate::at_hand::AtHand;
use crate::branch::Rest;
use crate::holes::holes_differ;
use crate::reading::{ReadFault, read_branch};
use crate::stub_tree::StubTree;
use at_car::Blocks;
use at_cid::Cid;
use mst_node::{NodeFault, layer_of_parts, parts_top, read_parts};
use std::alloc::Global;
use thiserror::Error;

/// Why there is no view.
#[derive(Debug, Drop, Error)]
pub enum ViewFault {
    /// The root's block isn't among the blocks.
    #[error("the root's block is missing")]
    NoBlock(Cid),
    /// The block under this link is the first one at fault, parents first and left to right: it is no node, or may not
    /// stand at its place. It is the root where no block is at fault and a hole's link stands twice.
    #[error("a block is no node of the tree")]
    BadNode(Cid),
    #[error("out of memory")]
    Memory,
}

/// What stopped a reading.
fn fault_of(fault: ReadFault) -> ViewFault
    ensures { result ≡ fault_of fault }
{
    match fault {
        ReadFault::BadNode(link) => ViewFault::BadNode(link),
        ReadFault::Memory => ViewFault::Memory,
    }
}

/// The tree under a top node of these parts that may stand there.
fn view_parts(
    alloc: Global,
    blocks: &AtHand,
    root: Cid,
    layer: u8,
    left: Option<Cid>,
    parts: Rest,
) -> Result<StubTree, ViewFault>
    requires linked { AreLinked blocks.now }
    requires kind { IsNodeLink root }
    requires layer { layer ≡ layer_of (entries_of parts.items) }
    requires bare { list_all is_bare parts.items ≡ true }
    requires fits { top_fits (left, entries_of parts.items) ≡ true }
    requires there { (block : List ℕ) × (map.get blocks.now root ≡ Some block)
        × (node_of block ≡ Some (left, entries_of parts.items)) }
    ensures view { IfOk result (λ tree. IsView blocks.now root tree) }
    ensures fault { IfErr result (λ fault. IsViewFault blocks.now root fault) }
{
    if parts.is_empty() {
        return Ok(StubTree::from_top(None));
    }
    let branch = match read_branch(alloc, blocks, layer, None, None, (left, parts), root) {
        Ok(branch) => branch,
        Err(fault) => return Err(fault_of(fault)),
    };
    match holes_differ(alloc, &branch) {
        Ok(true) => Ok(StubTree::from_top(Some(branch))),
        Ok(false) => Err(ViewFault::BadNode(root)),
        Err(_) => Err(ViewFault::Memory),
    }
}

fn view_at(alloc: Global, blocks: &AtHand, root: Cid) -> Result<StubTree, ViewFault>
    requires { IsNodeLink root }
    ensures view { IfOk result (λ tree. IsView blocks.now root tree) }
    ensures fault { IfErr result (λ fault. IsViewFault blocks.now root fault) }
{
    let Some(block) = blocks.get(&root) else {
        return Err(ViewFault::NoBlock(root));
    };
    let (left, parts): (Option<Cid>, Rest) = match read_parts(alloc, block) {
        Ok(parts) => parts,
        Err(NodeFault::BadNode) => return Err(ViewFault::BadNode(root)),
        Err(NodeFault::Memory) => return Err(ViewFault::Memory),
    };
    let layer = layer_of_parts(parts.as_slice());
    if parts_top(layer, &left, parts.as_slice()) {
        view_parts(alloc, blocks, root, layer, left, parts)
    } else {
        Err(ViewFault::BadNode(root))
    }
}

/// The tree of the blocks at a root, whose link is of kind Node: each node is encoded by its block, and a link whose
/// block isn't there is a hole.
///
/// It goes down at most 129 layers, holds no node with keys twice, and takes memory in proportion to the blocks.
pub fn view(alloc: Global, blocks: &Blocks, root: &Cid) -> Result<StubTree, ViewFault>
    requires { IsNodeLink root.now }
    ensures view { IfOk result (λ tree. IsView blocks.now root.now tree) }
    ensures fault { IfErr result (λ fault. IsViewFault blocks.now root.now fault) }
    ensures none { IfErr result (λ fault. HasNoView blocks.now root.now fault) }
{
    view_at(alloc, &AtHand::of(blocks), *root)
}
