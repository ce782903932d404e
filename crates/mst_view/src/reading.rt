//! Reading trees from blocks.

ghost use Rattle.std.specs.Prelude.{◌≡◌, ◌<◌, IfOk, OnOk, Some, None, true, option_map};
ghost use Rattle.std.specs.List.{list_all};
ghost use Rattle.std.specs.FinMap as map;
ghost use Rattle.at_cid.specs.Link.{IsNodeLink, cid};
ghost use Rattle.at_cid.specs.Memory.{Gives};
ghost use Rattle.at_car.specs.Blocks.{AreLinked};
ghost use Rattle.mst_node.specs.NodeBytes.{node_bytes};
ghost use Rattle.mst_node.specs.Nodes.{IsChildLink};
ghost use Rattle.mst_node.specs.Reading.{node_of};
ghost use Rattle.mst_node.specs.Trees.{encode_layer};
ghost use Rattle.mst_view.specs.Layered.{LiesBelow, IsAtLayer, AllAt, below_items, rest_items, below_link, entries_of, is_bare};
ghost use Rattle.mst_node.specs.FirstFault.{in_part};
ghost use Rattle.mst_node.specs.Fits.{is_some_node};
ghost use Rattle.mst_node.specs.TreeReading.{parts_of, part_at, rights_of};
ghost use Rattle.mst_view.specs.Steps.{AllHang, link_at_fault};
ghost use Rattle.mst_view.specs.declared.reading.ReadFault.{ReadFault};

use crate::at_hand::AtHand;
use crate::branch::{Below, Branch, Rest};
use at_cid::{Cid, Memory};
use mst_node::{NodeFault, next_key, parts_fit, read_parts};
use std::alloc::{AllocError, AllocFailed, Global};

/// Why a tree can't be read.
#[derive(Debug, Drop)]
pub(crate) enum ReadFault {
    /// The block under this link is no node, or may not stand at its place.
    BadNode(Cid),
    Memory,
}

impl From<Memory> for ReadFault {
    ghost from_gives = { λ _ fault. fault ≡ ReadFault.Memory };

    fn from(_e: Memory) -> ReadFault {
        ReadFault::Memory
    }
}

impl From<AllocError> for ReadFault {
    ghost from_gives = { λ _ fault. fault ≡ ReadFault.Memory };

    fn from(_e: AllocError) -> ReadFault {
        ReadFault::Memory
    }
}

impl<T: Drop> From<AllocFailed<T>> for ReadFault {
    ghost from_gives = { λ _ fault. fault ≡ ReadFault.Memory };

    fn from(_e: AllocFailed<T>) -> ReadFault {
        ReadFault::Memory
    }
}

/// What hangs under a link below a layer, between two keys.
#[cycle(read)]
#[inline]
fn read_below(
    alloc: Global,
    blocks: &AtHand,
    layer: u8,
    low: Option<&[u8]>,
    high: Option<&[u8]>,
    link: &Option<Cid>,
) -> Result<Below, ReadFault>
    requires kind { IsChildLink link.now }
    requires lowest { layer ≡ 0 → link.now ≡ None }
    ensures gives { Gives (below_items layer) link_at_fault result
        (part_at in_part node_of blocks.now layer (option_map (λ k. k.now) low.entry)
        (option_map (λ k. k.now) high.entry) link.now) }
    ensures lies { IfOk result (LiesBelow layer) }
    ensures keeps { IfOk result (λ below. below_link below ≡ link.now) }
{
    let Some(link) = link else {
        return Ok(Below::Empty);
    };
    match blocks.get(link) {
        Some(block) => read_tree(alloc, blocks, layer, low, high, *link, block),
        None => Ok(Below::Hole(*link)),
    }
}

/// The subtree that hangs below a layer, between two keys, from the block under its link on.
#[cycle(read)]
fn read_tree(
    alloc: Global,
    blocks: &AtHand,
    layer: u8,
    low: Option<&[u8]>,
    high: Option<&[u8]>,
    link: Cid,
    block: &[u8],
) -> Result<Below, ReadFault>
    requires kind { IsNodeLink link }
    requires above { 0 < layer }
    requires linked { AreLinked blocks.now }
    requires there { map.get blocks.now link ≡ Some block.now }
    ensures gives { Gives (below_items layer) link_at_fault result
        (part_at in_part node_of blocks.now layer (option_map (λ k. k.now) low.entry)
        (option_map (λ k. k.now) high.entry) (Some link)) }
    ensures lies { IfOk result (LiesBelow layer) }
    ensures keeps { IfOk result (λ below. below_link below ≡ Some link) }
{
    let (left, rest): (Option<Cid>, Rest) = match read_parts(alloc, block) {
        Ok(parts) => parts,
        Err(NodeFault::BadNode) => return Err(ReadFault::BadNode(link)),
        Err(NodeFault::Memory) => return Err(ReadFault::Memory),
    };
    let inner = layer - 1;
    if !parts_fit(inner, low, high, &left, rest.as_slice()) {
        return Err(ReadFault::BadNode(link));
    }
    let branch = read_branch(alloc, blocks, inner, low, high, (left, rest), link)?;
    Ok(Below::Tree(Box::new(alloc, branch)?))
}

/// Reads what hangs to the right of the parts of a node at a layer, up to a key.
#[cycle(read)]
fn read_rights(
    alloc: Global,
    blocks: &AtHand,
    layer: u8,
    high: Option<&[u8]>,
    rest: &mut Rest,
) -> Result<(), ReadFault>
    requires hang { AllHang layer (entries_of rest.old.items) }
    requires bare { list_all is_bare rest.old.items ≡ true }
    ensures gives { Gives (λ _. rest_items layer rest.new.items) link_at_fault result
        (rights_of (part_at in_part node_of blocks.now layer)
        (option_map (λ k. k.now) high.entry) (entries_of rest.old.items)) }
    ensures at { OnOk result (AllAt layer rest.new.items) }
    ensures keeps { OnOk result (entries_of rest.new.items ≡ entries_of rest.old.items) }
{
    let mut next = 0;
    'parts: while let [part, others @ ..] = &rest[next..] {
        let at = next;
        next += 1;
        let link = match &part.below {
            Below::Hole(link) => link,
            Below::Empty => continue,
            Below::Tree(_) => continue,
        };
        let Some(block) = blocks.get(link) else {
            continue;
        };
        let (low, high) = (Some(part.key.as_slice()), next_key(high, others));
        let below = read_tree(alloc, blocks, layer, low, high, *link, block)?;
        let part = &mut rest[at];
        part.below = below;
    }
    Ok(())
}

/// The node at a layer, between two keys, that the block under a link encodes, from its parts: what hangs left of all its keys,
/// and its entries.
#[cycle(read)]
#[inline(always)]
pub(crate) fn read_branch(
    alloc: Global,
    blocks: &AtHand,
    layer: u8,
    low: Option<&[u8]>,
    high: Option<&[u8]>,
    parts: (Option<Cid>, Rest),
    link: Cid,
) -> Result<Branch, ReadFault>
    requires kind { IsChildLink parts.0 }
    requires lowest { layer ≡ 0 → parts.0 ≡ None }
    requires hang { AllHang layer (entries_of parts.1.items) }
    requires bare { list_all is_bare parts.1.items ≡ true }
    requires link_is { link ≡ cid (node_bytes parts.0 (entries_of parts.1.items)) }
    ensures gives { Gives (λ branch. branch.items) link_at_fault result
        (parts_of (part_at in_part node_of blocks.now layer) (option_map (λ k. k.now) low.entry)
        (option_map (λ k. k.now) high.entry) (parts.0, entries_of parts.1.items)) }
    ensures layer { IfOk result (λ branch. branch.layer ≡ layer) }
    ensures link { IfOk result (λ branch. cid (encode_layer branch.layer branch.items) ≡ link) }
    ensures at { is_some_node (parts.0, entries_of parts.1.items) ≡ true
        → IfOk result IsAtLayer }
{
    let (left, mut rest) = parts;
    let first_high = next_key(high, rest.as_slice());
    let first = read_below(alloc, blocks, layer, low, first_high, &left)?;
    read_rights(alloc, blocks, layer, high, &mut rest)?;
    Ok(Branch {
        layer,
        link: Some(link),
        first,
        rest,
    })
}
