//! Undoing one operation in a tree: the key's way is walked down, and the node at its end changed in place.

ghost use Rattle.std.specs.Prelude.{◌≡◌, ◌≢◌, Some, OnOk, IfOk, MatchOption, ◌+◌};
ghost use Rattle.mst_list.specs.Height.{height};
ghost use Rattle.mst_list.specs.Lists.{Ascends};
ghost use Rattle.mst_list.specs.Edits.{put};
ghost use Rattle.mst_view.specs.Layered.{LiesBelow, below_items};
ghost use Rattle.mst_undo.specs.Cuts.{IsBelow};
ghost use Rattle.mst_undo.specs.Gaps.{AreNode, IsGapOf, IsKeyAt, node_items};
ghost use Rattle.mst_undo.specs.Undoing.{HasRoom, IsSafe, PutsKey};

use crate::cutting::{split_below, unless_empty};
use crate::editing::single;
use crate::gaps::{place, replace_gap};
use crate::joining::join_below;
use at_cid::{Cid, Memory, Octets};
use mst_list::{KeyBytes, Op};
use mst_view::{Below, Branch, Part, Rest};
use std::alloc::Global;

/// The value of a key that undoing an operation puts into a node of a layer, where that is the key's height.
fn new_at(op: &Op, high: u8, layer: u8) -> Option<Cid>
    ensures { MatchOption result (PutsKey op.entry.now → high ≢ layer) (λ v. PutsKey op.entry.now
        × (op.entry.now.was ≡ Some v) × (high ≡ layer)) }
{
    if op.now.is_none() && high == layer {
        op.was
    } else {
        None
    }
}

/// Puts a key into its gap: what lies there is cut at the key.
fn insert_key(
    alloc: Global,
    layer: u8,
    first: &mut Below,
    rest: &mut Rest,
    at: usize,
    key: &Octets,
    value: Cid,
) -> Result<(), Memory>
    requires node { AreNode layer first.old rest.old.items }
    requires ascends { Ascends (node_items layer first.old rest.old.items) }
    requires gap { IsGapOf key.now at rest.old.items }
    requires high { height key.now ≡ layer }
    ensures node { AreNode layer first.new rest.new.items }
    ensures items { OnOk result (node_items layer first.new rest.new.items
        ≡ put key.now (Some value) (node_items layer first.old rest.old.items)) }
{
    let below = replace_gap(first, rest, at, Below::Empty);
    let (before, behind) = split_below(alloc, layer, below, key.as_slice())?;
    replace_gap(first, rest, at, before);
    let key = KeyBytes::from_slice(alloc, key.as_slice())?;
    rest.insert(
        at,
        Part {
            key,
            value,
            below: behind,
        },
    )?;
    Ok(())
}

/// Puts the earlier value at a key of the node, or takes the key out, and joins what lay before it and behind it.
fn undo_at(
    alloc: Global,
    layer: u8,
    first: &mut Below,
    rest: &mut Rest,
    at: usize,
    op: &Op,
) -> Result<(), Memory>
    requires node { AreNode layer first.old rest.old.items }
    requires safe { IsSafe (node_items layer first.old rest.old.items) op.now }
    requires key { IsKeyAt op.now.key at rest.old.items }
    ensures node { AreNode layer first.new rest.new.items }
    ensures items { OnOk result (node_items layer first.new rest.new.items
        ≡ put op.entry.now.key op.entry.now.was (node_items layer first.old rest.old.items)) }
{
    match op.was {
        Some(value) => {
            let part = &mut rest[at];
            part.value = value;
            Ok(())
        }
        None => {
            let Part { below: behind, .. } = rest.remove(at);
            let before = replace_gap(first, rest, at, Below::Empty);
            let joined = join_below(alloc, layer, before, behind)?;
            replace_gap(first, rest, at, joined);
            Ok(())
        }
    }
}

/// What lies below a layer, with an operation undone. A key that isn't there yet has the height that is given.
#[cycle(undo)]
pub(crate) fn undo_below(
    alloc: Global,
    layer: u8,
    below: Below,
    op: &Op,
    high: u8,
) -> Result<Below, Memory>
    requires lies { LiesBelow layer below }
    requires safe { IsSafe (below_items layer below) op.now }
    requires room { HasRoom layer high op.now }
    ensures { IfOk result (IsBelow layer
        (put op.entry.now.key op.entry.now.was (below_items layer below))) }
{
    match below {
        Below::Empty => single(alloc, &op.key, op.was, high, layer),
        // No hole hides the key.
        Below::Hole(_) => unreachable!(),
        Below::Tree(mut branch) => {
            let node: &mut Branch = &mut branch;
            undo_node(alloc, node, op, high)?;
            Ok(unless_empty(branch))
        }
    }
}

/// The same in a node, whose link isn't known any more.
#[cycle(undo)]
fn undo_node(alloc: Global, branch: &mut Branch, op: &Op, high: u8) -> Result<(), Memory>
    requires safe { IsSafe branch.old.items op.now }
    requires room { HasRoom (branch.old.layer + 1) high op.now }
    ensures layer { branch.new.layer ≡ branch.old.layer }
    ensures items { OnOk result (branch.new.items
        ≡ put op.entry.now.key op.entry.now.was branch.old.items) }
{
    branch.link = None;
    undo_parts(
        alloc,
        branch.layer,
        &mut branch.first,
        &mut branch.rest,
        op,
        high,
    )
}

/// The same in the parts of a node.
#[cycle(undo)]
fn undo_parts(
    alloc: Global,
    layer: u8,
    first: &mut Below,
    rest: &mut Rest,
    op: &Op,
    high: u8,
) -> Result<(), Memory>
    requires node { AreNode layer first.old rest.old.items }
    requires safe { IsSafe (node_items layer first.old rest.old.items) op.now }
    requires room { HasRoom (layer + 1) high op.now }
    ensures node { AreNode layer first.new rest.new.items }
    ensures items { OnOk result (node_items layer first.new rest.new.items
        ≡ put op.entry.now.key op.entry.now.was (node_items layer first.old rest.old.items)) }
{
    match place(rest.as_slice(), op.key.as_slice()) {
        Ok(at) => undo_at(alloc, layer, first, rest, at, op),
        Err(at) => match new_at(op, high, layer) {
            Some(value) => insert_key(alloc, layer, first, rest, at, &op.key, value),
            None => {
                let below = replace_gap(first, rest, at, Below::Empty);
                let undone = undo_below(alloc, layer, below, op, high)?;
                replace_gap(first, rest, at, undone);
                Ok(())
            }
        },
    }
}
