//! Counting the keys of a tree, node by node.

ghost use Rattle.std.specs.Prelude.{◌≡◌, ◌<◌, ◌+◌, ◌-◌, ◌^◌, IfOk, IfErr, option_map};
ghost use Rattle.at_cid.specs.Memory.{Gives};
ghost use Rattle.mst_node.specs.FirstFault.{in_whole};
ghost use Rattle.mst_node.specs.Reading.{node_of};
ghost use Rattle.mst_node.specs.TreeReading.{parts_of, part_at, rights_of, whole_of};
ghost use Rattle.mst_whole.specs.Counting.{count, link_at_fault};
ghost use Rattle.mst_whole.specs.declared.counting.CountFault.{CountFault};

use at_car::Blocks;
use at_cid::{Cid, NUMBERS};
use mst_node::{Entry, NodeFault, layer_of, next_key, node_fits, read_node, top_fits};
use std::alloc::Global;

/// Why keys can't be counted.
#[derive(Debug, Drop)]
pub(crate) enum CountFault {
    /// The block under this link isn't there, is no node, or may not stand at its place.
    At(Cid),
    /// Memory ran out, or there are more keys than are counted.
    Memory,
}

fn add(some: u64, more: u64) -> Result<u64, CountFault>
    ensures sum { IfOk result (λ n. n ≡ some + more) }
    ensures most { IfOk result (λ n. n < NUMBERS) }
    ensures wants { IfErr result (λ e. e ≡ CountFault.Memory) }
{
    match some.checked_add(more) {
        Some(sum) if sum < NUMBERS => Ok(sum),
        _ => Err(CountFault::Memory),
    }
}

/// The keys under a link below a layer, between two keys.
#[cycle(count)]
fn count_below(
    alloc: Global,
    blocks: &Blocks,
    layer: u8,
    low: Option<&[u8]>,
    high: Option<&[u8]>,
    link: Option<Cid>,
) -> Result<u64, CountFault>
    ensures gives { Gives (λ n. n) link_at_fault result (count (part_at in_whole node_of blocks.now
        layer (option_map (λ k. k.now) low.entry) (option_map (λ k. k.now) high.entry) link)) }
    ensures most { IfOk result (λ n. n < NUMBERS) }
{
    if layer == 0 {
        return Ok(0);
    }
    let Some(link) = link else {
        return Ok(0);
    };
    let Some(block) = blocks.get(&link) else {
        return Err(CountFault::At(link));
    };
    let node = match read_node(alloc, block) {
        Ok(node) => node,
        Err(NodeFault::BadNode) => return Err(CountFault::At(link)),
        Err(NodeFault::Memory) => return Err(CountFault::Memory),
    };
    let inner = layer - 1;
    if !node_fits(inner, low, high, &node) {
        return Err(CountFault::At(link));
    }
    count_parts(
        alloc,
        blocks,
        inner,
        low,
        high,
        node.left,
        node.entries.as_slice(),
    )
}

/// The keys of entries at a layer and of what hangs to their right, up to a key.
#[cycle(count)]
fn count_rest(
    alloc: Global,
    blocks: &Blocks,
    layer: u8,
    high: Option<&[u8]>,
    entries: &[Entry],
) -> Result<u64, CountFault>
    ensures gives { Gives (λ n. n) link_at_fault result
        (count (rights_of (part_at in_whole node_of blocks.now layer)
        (option_map (λ k. k.now) high.entry) entries.now)) }
    ensures most { IfOk result (λ n. n < NUMBERS) }
{
    let mut keys = 0;
    let mut rest = entries;
    'entries: loop {
        let [entry, others @ ..] = rest else {
            return Ok(keys);
        };
        let below = count_below(
            alloc,
            blocks,
            layer,
            Some(entry.key.as_slice()),
            next_key(high, others),
            entry.right,
        )?;
        keys = add(keys, below + 1)?;
        rest = others;
    }
}

/// The keys of a node at a layer, between two keys.
#[cycle(count)]
fn count_parts(
    alloc: Global,
    blocks: &Blocks,
    layer: u8,
    low: Option<&[u8]>,
    high: Option<&[u8]>,
    left: Option<Cid>,
    entries: &[Entry],
) -> Result<u64, CountFault>
    ensures gives { Gives (λ n. n) link_at_fault result (count
        (parts_of (part_at in_whole node_of blocks.now layer) (option_map (λ k. k.now) low.entry)
        (option_map (λ k. k.now) high.entry) (left, entries.now))) }
    ensures most { IfOk result (λ n. n < NUMBERS) }
{
    let first = count_below(alloc, blocks, layer, low, next_key(high, entries), left)?;
    let rest = count_rest(alloc, blocks, layer, high, entries)?;
    add(first, rest)
}

/// The keys of the tree at a root.
pub(crate) fn count_all(alloc: Global, blocks: &Blocks, root: Cid) -> Result<u64, CountFault>
    ensures gives { Gives (λ n. n) link_at_fault result (count (whole_of node_of blocks.now root)) }
    ensures most { IfOk result (λ n. n < NUMBERS) }
{
    let Some(block) = blocks.get(&root) else {
        return Err(CountFault::At(root));
    };
    let node = match read_node(alloc, block) {
        Ok(node) => node,
        Err(NodeFault::BadNode) => return Err(CountFault::At(root)),
        Err(NodeFault::Memory) => return Err(CountFault::Memory),
    };
    let layer = layer_of(&node);
    if !top_fits(layer, &node) {
        return Err(CountFault::At(root));
    }
    count_parts(
        alloc,
        blocks,
        layer,
        None,
        None,
        node.left,
        node.entries.as_slice(),
    )
}
