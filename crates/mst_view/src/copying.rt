//! Copies of trees.

ghost use Rattle.std.specs.Prelude.{◌≡◌, IfOk};
ghost use Rattle.mst_view.specs.Layered.{LiesBelow, AllAt, below_items, rest_items};

use crate::branch::{Below, Branch, Part, Rest};
use at_cid::Memory;
use std::alloc::Global;

#[cycle(copy)]
fn copy_below(alloc: Global, layer: u8, below: &Below) -> Result<Below, Memory>
    requires { LiesBelow layer below.now }
    ensures lies { IfOk result (LiesBelow layer) }
    ensures items { IfOk result (λ copied. below_items layer copied ≡ below_items layer below.now) }
{
    match below {
        Below::Empty => Ok(Below::Empty),
        Below::Hole(link) => Ok(Below::Hole(*link)),
        Below::Tree(branch) => {
            let copied = copy_branch(alloc, branch)?;
            Ok(Below::Tree(Box::new(alloc, copied)?))
        }
    }
}

#[cycle(copy)]
fn copy_rest(alloc: Global, layer: u8, parts: &[Part]) -> Result<Rest, Memory>
    requires { AllAt layer parts.now }
    ensures at { IfOk result (λ rest. AllAt layer rest.items) }
    ensures items { IfOk result (λ rest. rest_items layer rest.items ≡ rest_items layer parts.now) }
{
    let mut rest = Vec::new(alloc);
    for part in parts {
        let key = part.key.try_clone()?;
        let below = copy_below(alloc, layer, &part.below)?;
        rest.push(Part {
            key,
            value: part.value,
            below,
        })?;
    }
    Ok(rest)
}

/// The same node once more, with what lies below it.
#[cycle(copy)]
pub(crate) fn copy_branch(alloc: Global, branch: &Branch) -> Result<Branch, Memory>
    ensures { IfOk result (λ copied. copied ≡ branch.now) }
{
    let first = copy_below(alloc, branch.layer, &branch.first)?;
    let rest = copy_rest(alloc, branch.layer, branch.rest.as_slice())?;
    Ok(Branch {
        layer: branch.layer,
        link: branch.link,
        first,
        rest,
    })
}
