//! Trees as lists.

ghost use Rattle.std.specs.Prelude.{◌≡◌, OnOk, ◌++◌};
ghost use Rattle.mst_list.specs.Lists.{AreFormed};
ghost use Rattle.mst_view.specs.Layered.{LiesBelow, below_items};

use crate::branch::{Below, Branch};
use at_cid::Memory;
use mst_list::{Item, ItemList};

#[cycle(list)]
fn list_below(layer: u8, below: &Below, list: &mut ItemList) -> Result<(), Memory>
    requires lies { LiesBelow layer below.now }
    requires formed { AreFormed (below_items layer below.now) }
    ensures { OnOk result (list.new ≡ list.old ++ below_items layer below.now) }
{
    match below {
        Below::Empty => Ok(()),
        Below::Hole(link) => list.push(Item::Hole(layer - 1, *link)),
        Below::Tree(branch) => list_branch(branch, list),
    }
}

/// Puts what a node holds at the end of a list.
#[cycle(list)]
pub(crate) fn list_branch(branch: &Branch, list: &mut ItemList) -> Result<(), Memory>
    requires { AreFormed branch.now.items }
    ensures { OnOk result (list.new ≡ list.old ++ branch.now.items) }
{
    list_below(branch.layer, &branch.first, list)?;
    for part in &branch.rest {
        let key = part.key.try_clone()?;
        list.push(Item::Key(key, part.value))?;
        list_below(branch.layer, &part.below, list)?;
    }
    Ok(())
}
