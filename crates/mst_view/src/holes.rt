//! The links of a tree's holes.

ghost use Rattle.std.specs.Prelude.{◌≡◌, IfOk, OnOk, ◌++◌};
ghost use Rattle.std.specs.Str.{bytes_eq};
ghost use Rattle.at_cid.specs.Distinct.{all_differ};
ghost use Rattle.mst_view.specs.Layered.{LiesBelow, below_items};
ghost use Rattle.mst_view.specs.HoleLinks.{hole_links};

use crate::beginning::begin_apart;
use crate::branch::{Below, Branch};
use at_cid::{Cid, Memory};
use std::alloc::Global;
use std::collections::BTreeSet;

#[cycle(holes)]
fn links_below(layer: u8, below: &Below, links: &mut Vec<Cid>) -> Result<(), Memory>
    requires { LiesBelow layer below.now }
    ensures { OnOk result
        (links.new.items ≡ links.old.items ++ hole_links (below_items layer below.now)) }
{
    match below {
        Below::Empty => Ok(()),
        Below::Hole(link) => {
            links.push(*link)?;
            Ok(())
        }
        Below::Tree(branch) => links_of(branch, links),
    }
}

/// Puts the links of a node's holes at the end of a list.
#[cycle(holes)]
fn links_of(branch: &Branch, links: &mut Vec<Cid>) -> Result<(), Memory>
    ensures { OnOk result (links.new.items ≡ links.old.items ++ hole_links branch.now.items) }
{
    links_below(branch.layer, &branch.first, links)?;
    for part in &branch.rest {
        links_below(branch.layer, &part.below, links)?;
    }
    Ok(())
}

/// Whether no link stands twice: a search tree holds those behind the one at hand.
fn all_differ(alloc: Global, links: &[Cid]) -> Result<bool, Memory>
    ensures { IfOk result (λ differ. differ ≡ all_differ bytes_eq links.now) }
{
    let mut seen = BTreeSet::new(alloc);
    let mut left = links.len();
    while left > 0 {
        left -= 1;
        if !seen.insert(links[left])? {
            return Ok(false);
        }
    }
    Ok(true)
}

/// Whether the links of a node's holes differ.
pub(crate) fn holes_differ(alloc: Global, branch: &Branch) -> Result<bool, Memory>
    ensures { IfOk result (λ differ. differ ≡ all_differ bytes_eq (hole_links branch.now.items)) }
{
    if begin_apart(alloc, branch)? {
        return Ok(true);
    }
    let mut links = Vec::new(alloc);
    links_of(branch, &mut links)?;
    all_differ(alloc, links.as_slice())
}
