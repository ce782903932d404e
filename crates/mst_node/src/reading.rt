//! Reading a node from its block.

ghost use Rattle.std.specs.Prelude.{◌≡◌, ◌≤◌, ◌*◌, Some, None, true, length, map, vec_capacity, IfOk, IfErr};
ghost use Rattle.std.specs.List.{list_all};
ghost use Rattle.mst_node.specs.declared.fault.NodeFault as fault;
ghost use Rattle.mst_node.specs.declared.taking.TheConstants.{FEWEST_ENTRY_BYTES};
ghost use Rattle.mst_node.specs.Nodes as nodes;
ghost use Rattle.mst_node.specs.Nodes.{Encodes};
ghost use Rattle.mst_node.specs.Reading.{node_of};

use crate::entries::Entries;
use crate::fault::NodeFault;
use crate::keyed::Keyed;
use crate::node::Node;
use crate::taking::take_node;
use at_cid::{Cid, ghost_bytes};
use std::alloc::Global;

/// The link to the left and the entries of the node that [`read_node`] answers, kept as a caller wants them.
#[tactic(auto, using(crate::proofs::Encoded::told_taken, crate::proofs::Encoded::none_taken))]
pub fn read_parts<E: Keyed + Drop>(
    alloc: Global,
    block: &[u8],
) -> Result<(Option<Cid>, Vec<E>), NodeFault>
    ensures told { IfOk result (λ n. node_of block.now ≡ Some (n.0, map E.entry n.1.items)) }
    ensures bare { IfOk result (λ n. list_all E.is_bare n.1.items ≡ true) }
    ensures room { IfOk result (λ n. vec_capacity n.1 * FEWEST_ENTRY_BYTES ≤ length block.now) }
    ensures none { IfErr result
        (λ cause. cause ≡ fault.NodeFault.BadNode → node_of block.now ≡ None) }
{
    ghost_bytes(block);
    take_node(alloc, block)
}

/// The node whose one encoding the block is. `BadNode` comes exactly where the block is the encoding of no node: where it
/// is no item or more than one, has other fields than those of a node or in another order, shares fewer or more bytes with
/// the key before than are the same, has keys that don't ascend or aren't of 1 to
/// [`MOST_KEY_BYTES`](mst_list::MOST_KEY_BYTES) bytes, or links onward to what is no node.
/// (Repository specification, MST structure.)
#[tactic(auto, using(crate::proofs::Readers::told_encodes, crate::proofs::Readers::none_encodes, crate::proofs::Rounds::entries_same))]
pub fn read_node(alloc: Global, block: &[u8]) -> Result<Node, NodeFault>
    ensures node { IfOk result (λ node. Encodes block.now node) }
    ensures bad { IfErr result
        (λ cause. cause ≡ fault.NodeFault.BadNode → (n : nodes.Node) → Encodes block.now n → ⊥) }
    // The same by the one node that is told from a block.
    ensures told { IfOk result (λ node. node_of block.now ≡ Some node) }
    ensures none { IfErr result
        (λ cause. cause ≡ fault.NodeFault.BadNode → node_of block.now ≡ None) }
{
    let (left, entries) = read_parts(alloc, block)?;
    Ok(Node {
        left,
        entries: Entries::from_vec(entries),
    })
}
