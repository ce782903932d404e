//! Trees whose nodes know their links.

ghost use Rattle.std.specs.Prelude.{◌≡◌, IfOk};
ghost use Rattle.mst_node.specs.NodeBytes.{node_bytes};
ghost use Rattle.mst_view.specs.Layered.{LiesBelow, AllAt, below_items, rest_items, below_link, entries_of};

use at_cid::{Cid, Memory, Octets, cid_of};
use mst_node::{Entry, encode_node};
use mst_view::{Below, Branch, Part, Rest, StubTree};
use std::alloc::Global;
use std::collections::VecDeque;

/// The link of what lies below a node.
fn link_below(alloc: Global, below: &Below) -> Result<Option<Cid>, Memory>
    ensures { IfOk result (λ link. link ≡ below_link below.now) }
{
    match below {
        Below::Empty => Ok(None),
        Below::Hole(link) => Ok(Some(*link)),
        Below::Tree(branch) => Ok(Some(branch.link_of(alloc)?)),
    }
}

/// The entries of a node.
fn entries_of(alloc: Global, parts: &[Part]) -> Result<Vec<Entry>, Memory>
    ensures { IfOk result (λ entries. entries.items ≡ entries_of parts.now) }
{
    let mut entries = Vec::with_capacity(alloc, parts.len())?;
    for part in parts {
        entries.push(Entry {
            key: part.key.try_clone()?,
            value: part.value,
            right: link_below(alloc, &part.below)?,
        })?;
    }
    Ok(entries)
}

/// The block of a node.
pub(crate) fn block_of(alloc: Global, first: &Below, rest: &[Part]) -> Result<Octets, Memory>
    ensures { IfOk result (λ block. block
        ≡ node_bytes (below_link first.now) (entries_of rest.now)) }
{
    let left = link_below(alloc, first)?;
    let entries = entries_of(alloc, rest)?;
    encode_node(alloc, &left, entries.as_slice())
}

/// The same below a node, each node of which knows its link.
#[cycle(settle)]
fn settle_below(alloc: Global, layer: u8, below: Below) -> Result<Below, Memory>
    requires { LiesBelow layer below }
    ensures lies { IfOk result (LiesBelow layer) }
    ensures items { IfOk result (λ settled. below_items layer settled ≡ below_items layer below) }
{
    match below {
        Below::Empty => Ok(Below::Empty),
        Below::Hole(link) => Ok(Below::Hole(link)),
        Below::Tree(branch) => {
            if branch.link.is_some() {
                return Ok(Below::Tree(branch));
            }
            let settled = settle_branch(alloc, Box::into_inner(branch))?;
            Ok(Below::Tree(Box::new(alloc, settled)?))
        }
    }
}

#[cycle(settle)]
fn settle_rest(alloc: Global, layer: u8, rest: Rest) -> Result<Rest, Memory>
    requires { AllAt layer rest.items }
    ensures at { IfOk result (λ settled. AllAt layer settled.items) }
    ensures items { IfOk result (λ settled. rest_items layer settled.items
        ≡ rest_items layer rest.items) }
{
    let mut settled = Vec::with_capacity(alloc, rest.len())?;
    let mut left = VecDeque::from_vec(rest);
    'parts: while let Some(part) = left.pop_front() {
        let Part { key, value, below } = part;
        let below = settle_below(alloc, layer, below)?;
        settled.push(Part { key, value, below })?;
    }
    Ok(settled)
}

/// The same node, which knows its link, as each below it does.
#[cycle(settle)]
fn settle_branch(alloc: Global, branch: Branch) -> Result<Branch, Memory>
    ensures { IfOk result (λ settled. settled ≡ branch) }
{
    let Branch {
        layer,
        link,
        first,
        rest,
    } = branch;
    if link.is_some() {
        return Ok(Branch {
            layer,
            link,
            first,
            rest,
        });
    }
    let first = settle_below(alloc, layer, first)?;
    let rest = settle_rest(alloc, layer, rest)?;
    let block = block_of(alloc, &first, rest.as_slice())?;
    Ok(Branch {
        layer,
        link: Some(cid_of(block.as_slice())),
        first,
        rest,
    })
}

/// The same tree, each node of which knows its link: those that knew none are encoded, once.
pub(crate) fn settled(alloc: Global, tree: StubTree) -> Result<StubTree, Memory>
    ensures { IfOk result (λ settled. settled ≡ tree) }
{
    match tree.into_top() {
        None => Ok(StubTree::from_top(None)),
        Some(top) => {
            let top = settle_branch(alloc, top)?;
            Ok(StubTree::from_top(Some(top)))
        }
    }
}
