//! The root of a map: the link of the top node of the tree that its keys encode to.

ghost use Rattle.std.specs.Prelude.{◌≡◌, ◌≤◌, IfOk, length, drop};
ghost use Rattle.mst_list.specs.declared.limits.TheConstants.{MOST_HEIGHT};
ghost use Rattle.mirror.specs.Lone.{lone_hole};
ghost use Rattle.mst_node.specs.Trees.{entries_at, first_part, part_link, root, encode_layer, top_layer};

use crate::placed::{Placed, placed_of};
use at_cid::{Cid, Memory, Octets, cid_of};
use mst_list::Item;
use mst_node::{Entry, encode_node};
use std::alloc::Global;
use whole_map::WholeMap;

// The layer of the top node.
fn top_layer(items: &[Placed<'_>]) -> u8
    ensures value { result ≡ top_layer items.now }
    ensures most { result ≤ MOST_HEIGHT }
{
    let mut top = 0;
    for item in items {
        top = top.max(item.height());
    }
    top
}

// The items before the first key of a height.
fn first_part<'a, 'b>(items: &'a [Placed<'b>], layer: u8) -> &'a [Placed<'b>]
    ensures { result.now ≡ first_part layer items.now }
{
    for (i, item) in items.iter().enumerate() {
        if item.height() == layer
            && let Item::Key(..) = item.item()
        {
            return &items[..i];
        }
    }
    items
}

// The link of a hole at a layer that stands alone.
fn lone_hole(layer: u8, items: &[Placed<'_>]) -> Option<Cid>
    ensures { result ≡ lone_hole layer items.now }
{
    let [placed] = items else {
        return None;
    };
    match placed.item() {
        Item::Hole(at, link) if *at == layer => Some(*link),
        _ => None,
    }
}

// The link of a part below a layer.
#[cycle(encode)]
fn part_link(alloc: Global, layer: u8, items: &[Placed<'_>]) -> Result<Option<Cid>, Memory>
    ensures { IfOk result (λ link. link ≡ part_link layer items.now) }
{
    if layer == 0 {
        return Ok(None);
    }
    if items.is_empty() {
        return Ok(None);
    }
    if let Some(link) = lone_hole(layer - 1, items) {
        return Ok(Some(link));
    }
    let block = node_over(alloc, layer - 1, items)?;
    Ok(Some(cid_of(block.as_slice())))
}

// The entries at a layer, each with the link of the part to its right.
#[cycle(encode)]
fn entries_at(alloc: Global, layer: u8, items: &[Placed<'_>]) -> Result<Vec<Entry>, Memory>
    ensures { IfOk result
        (λ entries. entries.items ≡ entries_at (part_link layer) layer items.now) }
{
    let mut entries = Vec::new(alloc);
    let mut rest = items;
    'items: loop {
        let [item, others @ ..] = rest else {
            return Ok(entries);
        };
        if item.height() == layer
            && let Item::Key(key, value) = item.item()
        {
            let right = part_link(alloc, layer, first_part(others, layer))?;
            let key = key.try_clone()?;
            entries.push(Entry {
                key,
                value: *value,
                right,
            })?;
        }
        rest = others;
    }
}

// The block at a layer.
#[cycle(encode)]
fn node_over(alloc: Global, layer: u8, items: &[Placed<'_>]) -> Result<Octets, Memory>
    ensures { IfOk result (λ block. block ≡ encode_layer layer items.now) }
{
    let left = part_link(alloc, layer, first_part(items, layer))?;
    let entries = entries_at(alloc, layer, items)?;
    encode_node(alloc, &left, entries.as_slice())
}

/// The link of the top node of a map's tree, which a repository's commit states as its `data`. It goes over the map once, and
/// hashes each key once. (Repository specification, MST structure.)
pub fn whole_root(alloc: Global, map: &WholeMap) -> Result<Cid, Memory>
    ensures { IfOk result (λ link. link ≡ root map.now) }
{
    let placed = placed_of(alloc, map)?;
    let items = placed.as_slice();
    let block = node_over(alloc, top_layer(items), items)?;
    Ok(cid_of(block.as_slice()))
}
