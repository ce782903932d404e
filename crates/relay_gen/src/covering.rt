//! The blocks that cover a commit's operations.

ghost use Rattle.std.specs.Prelude.{◌≡◌, ◌++◌, ◌&&◌, map, option_map, slice_get, length, ◌≤◌, None, OnOk, IfOk};
ghost use Rattle.mst_list.specs.Lists.{Ascends};
ghost use Rattle.mst_node.specs.Covers.{part_encoded, right_encoded};
ghost use Rattle.mst_node.specs.Fits.{is_under};
ghost use Rattle.mst_node.specs.Reading.{is_over};
ghost use Rattle.mst_view.specs.Layered.{AllAt, LiesBelow, below_items, rest_items};
ghost use Rattle.mst_view.specs.StubTree.{IsTop, top_items};
ghost use Rattle.relay_gen.specs.Covers.{covered_keys, neighbours, on_ways, one_between};
ghost use Rattle.relay_gen.specs.Messages.{with_blocks};
ghost use Rattle.relay_gen.specs.Records.{behind, has_path, item_of, last_path, op_of, path_or_none};
ghost use Rattle.relay_gen.specs.Walks.{IsRange, given_for, node_encoded, part_bound};

use crate::records::{Change, Record, is_at, place_of};
use crate::settling::block_of;
use at_car::Blocks;
use at_cid::{Memory, Words, cid_of, compare};
use mst_node::EMPTY_NODE;
use mst_view::{Below, Branch, Part};
use std::alloc::Global;

/// Whether a path lies between two bounds, of which none is an end.
fn lies_between(low: Option<&[u8]>, path: &[u8], high: Option<&[u8]>) -> bool
    ensures { result ≡ (is_over (option_map (λ k. k.now) low.entry) path.now
        && is_under path.now (option_map (λ k. k.now) high.entry)) }
{
    let over = match low {
        Some(low) => compare(low, path).is_lt(),
        None => true,
    };
    let under = match high {
        Some(high) => compare(path, high).is_lt(),
        None => true,
    };
    over && under
}

/// Whether one of the paths lies between two bounds.
fn one_lies_between(low: Option<&[u8]>, paths: &[Words], high: Option<&[u8]>) -> bool
    ensures { result ≡ one_between (option_map (λ k. k.now) low.entry)
        (option_map (λ k. k.now) high.entry) paths.now }
{
    paths.iter().any(
        |path: &Words| -> bool
            ensures { result ≡ (is_over (option_map (λ k. k.now) low.entry) path.now
                && is_under path.now (option_map (λ k. k.now) high.entry)) }
        { lies_between(low, path.as_bytes(), high) },
    )
}

/// Adds the blocks of what lies below a layer between two bounds that are on the way to one of the paths.
#[cycle(cover)]
fn cover_below(
    alloc: Global,
    layer: u8,
    below: &Below,
    low: Option<&[u8]>,
    high: Option<&[u8]>,
    paths: &[Words],
    blocks: &mut Blocks,
) -> Result<(), Memory>
    requires lies { LiesBelow layer below.now }
    requires range { IsRange (option_map (λ k. k.now) low) (option_map (λ k. k.now) high)
        (below_items layer below.now) }
    ensures { OnOk result (blocks.new ≡ with_blocks blocks.old
        (on_ways paths.now (part_encoded layer (option_map (λ k. k.now) low.entry)
        (option_map (λ k. k.now) high.entry) (below_items layer below.now)))) }
{
    match below {
        Below::Empty | Below::Hole(_) => Ok(()),
        Below::Tree(branch) => cover_branch(alloc, branch, low, high, paths, blocks),
    }
}

/// Adds the blocks of a node between two bounds that are on the way to one of the paths.
#[cycle(cover)]
fn cover_branch(
    alloc: Global,
    branch: &Branch,
    low: Option<&[u8]>,
    high: Option<&[u8]>,
    paths: &[Words],
    blocks: &mut Blocks,
) -> Result<(), Memory>
    requires { IsRange (option_map (λ k. k.now) low)
        (option_map (λ k. k.now) high) branch.now.items }
    ensures { OnOk result (blocks.new ≡ with_blocks blocks.old
        (on_ways paths.now (node_encoded branch.now.layer (option_map (λ k. k.now) low.entry)
        (option_map (λ k. k.now) high.entry) branch.now.items))) }
{
    if !one_lies_between(low, paths, high) {
        return Ok(());
    }
    let parts = branch.rest.as_slice();
    let block = block_of(alloc, &branch.first, parts)?;
    let link = branch.link_of(alloc)?;
    blocks.put(link, block.as_slice())?;
    let layer = branch.layer;
    cover_below(
        alloc,
        layer,
        &branch.first,
        low,
        bound_before(parts, high),
        paths,
        blocks,
    )?;
    cover_parts(alloc, layer, parts, high, paths, blocks)
}

/// The key of the first part, or else the bound behind the parts.
fn bound_before<'a>(parts: &'a [Part], high: Option<&'a [u8]>) -> Option<&'a [u8]>
    ensures { option_map (λ k. k.now) result
        ≡ part_bound (option_map (λ k. k.now) high.entry) parts.now }
{
    match parts.first() {
        Some(part) => Some(part.key.as_slice()),
        None => high,
    }
}

/// Adds the blocks of what lies behind the keys of a node, up to a bound.
#[cycle(cover)]
fn cover_parts(
    alloc: Global,
    layer: u8,
    parts: &[Part],
    high: Option<&[u8]>,
    paths: &[Words],
    blocks: &mut Blocks,
) -> Result<(), Memory>
    requires at { AllAt layer parts.now }
    requires range { IsRange None (option_map (λ k. k.now) high) (rest_items layer parts.now) }
    ensures { OnOk result (blocks.new ≡ with_blocks blocks.old
        (on_ways paths.now (right_encoded (part_encoded layer) layer
        (option_map (λ k. k.now) high.entry) (rest_items layer parts.now)))) }
{
    let mut rest = parts;
    'parts: loop {
        let [part, others @ ..] = rest else {
            return Ok(());
        };
        let low = Some(part.key.as_slice());
        let bound = bound_before(others, high);
        cover_below(alloc, layer, &part.below, low, bound, paths, blocks)?;
        rest = others;
    }
}

/// The paths that have to be covered: those of the changes, and the neighbours of those that are created.
pub(crate) fn covered_paths(
    alloc: Global,
    records: &[Record],
    changes: &[Change],
) -> Result<Vec<Words>, Memory>
    requires { Ascends (map item_of records.now) }
    ensures { IfOk result (λ paths. paths.items
        ≡ covered_keys (map item_of records.now) (map op_of changes.now)) }
{
    let mut paths = Vec::new(alloc);
    for change in changes {
        paths.push(change.path.try_clone()?)?;
        if change.was.is_none() {
            add_neighbours(records, &change.path, &mut paths)?;
        }
    }
    Ok(paths)
}

/// Adds the paths beside a path.
fn add_neighbours(records: &[Record], path: &Words, paths: &mut Vec<Words>) -> Result<(), Memory>
    requires { Ascends (map item_of records.now) }
    ensures { OnOk result (paths.new.items ≡ paths.old.items
        ++ neighbours (map item_of records.now) path.now None) }
{
    let at = place_of(records, path);
    let next = behind(records, at, path);
    add_before(records, at, paths)?;
    add_at(records, next, paths)?;
    Ok(())
}

/// The place behind that of a path, where the path is there.
fn behind(records: &[Record], at: usize, path: &Words) -> usize
    requires { at ≤ length records.now }
    ensures { result ≡ behind (has_path path.now (slice_get records.now at)) at }
{
    if is_at(records, at, path) { at + 1 } else { at }
}

/// Adds the path of the record at a place, where there is one.
fn add_at(records: &[Record], at: usize, paths: &mut Vec<Words>) -> Result<(), Memory>
    ensures { OnOk result (paths.new.items ≡ paths.old.items
        ++ path_or_none (slice_get records.now at)) }
{
    match records.get(at) {
        Some(record) => {
            paths.push(record.path.try_clone()?)?;
            Ok(())
        }
        None => Ok(()),
    }
}

/// Adds the path of the record before a place, where there is one.
fn add_before(records: &[Record], at: usize, paths: &mut Vec<Words>) -> Result<(), Memory>
    ensures { OnOk result (paths.new.items ≡ paths.old.items ++ last_path records.now at) }
{
    if at > 0 {
        add_at(records, at - 1, paths)?;
    }
    Ok(())
}

/// Adds the blocks of the tree of records, under its top node, that are on the way to one of the paths; the empty node where
/// there are no records.
pub(crate) fn cover(
    alloc: Global,
    records: &[Record],
    top: &Option<Branch>,
    paths: &[Words],
    blocks: &mut Blocks,
) -> Result<(), Memory>
    requires top { IsTop top.now }
    requires items { top_items top.now ≡ map item_of records.now }
    ensures { OnOk result (blocks.new ≡ with_blocks blocks.old
        (given_for (map item_of records.now) paths.now)) }
{
    if records.is_empty() {
        return blocks.put(cid_of(&EMPTY_NODE), &EMPTY_NODE);
    }
    match top {
        // The tree of records that are there has a node.
        None => unreachable!(),
        Some(branch) => cover_branch(alloc, branch, None, None, paths, blocks),
    }
}
