//! Whether the blocks of a commit show the step from the former root to its `data`.

ghost use Rattle.std.specs.Prelude.{◌≡◌, IfOk, IfErr, OnOk, List, ℕ};
ghost use Rattle.at_car.specs.Blocks.{BlockMap};
ghost use Rattle.at_cid.specs.Link.{IsNodeLink};
ghost use Rattle.mst_list.specs.Edits.{AreApart};
ghost use Rattle.commit_check.specs.Linking.{IsAtHand, IsRootBefore, IsStopBy};
ghost use Rattle.commit_check.specs.Step.{LeadsBy};

use crate::fault::CheckFault;
use at_car::Blocks;
use at_cid::Cid;
use at_event::Refusal;
use mst_list::OpList;
use mst_undo::undo;
use mst_view::{StubTree, view};
use std::alloc::Global;

/// The tree that the blocks hold under a root, where there are operations to be undone on it.
#[tactic(auto, using(crate::proofs::Roots::by_hand))]
pub(crate) fn tree_at_hand(
    alloc: Global,
    blocks: &Blocks,
    root: &Cid,
    ops: &OpList,
) -> Result<Option<StubTree>, CheckFault>
    requires kind { IsNodeLink root.now }
    ensures held { IfOk result (IsAtHand blocks.now root.now ops.now) }
    ensures stops { (former : List ℕ) → IfErr result (IsStopBy ops.now blocks.now former root.now) }
{
    if ops.is_empty() {
        return Ok(None);
    }
    Ok(Some(view(alloc, blocks, root)?))
}

/// The root before the operations, by undoing them on a tree: the root that is given, where there are none.
fn root_before_ops(
    alloc: Global,
    tree: Option<StubTree>,
    root: &Cid,
    ops: &OpList,
) -> Result<Cid, CheckFault>
    requires apart { AreApart ops.now }
    ensures back { IfOk result (λ before. (blocks : BlockMap)
        → IsAtHand blocks root.now ops.now tree → IsRootBefore blocks root.now ops.now before) }
    ensures stops { (blocks : BlockMap) (former : List ℕ) → IsAtHand blocks root.now ops.now tree
        → IfErr result (IsStopBy ops.now blocks former root.now) }
{
    let Some(tree) = tree else {
        return Ok(*root);
    };
    let before = undo(alloc, tree, ops)?;
    let link = before.top_link(alloc)?;
    Ok(link)
}

/// Whether the operations, undone on a tree, lead back to the former root. The tree is let go.
pub(crate) fn lead_from(
    alloc: Global,
    tree: Option<StubTree>,
    former: &Cid,
    root: &Cid,
    ops: &OpList,
) -> Result<(), CheckFault>
    requires apart { AreApart ops.now }
    ensures leads { (blocks : BlockMap) → IsAtHand blocks root.now ops.now tree
        → OnOk result (LeadsBy ops.now blocks former.now root.now) }
    ensures stops { (blocks : BlockMap) → IsAtHand blocks root.now ops.now tree
        → IfErr result (IsStopBy ops.now blocks former.now root.now) }
{
    let before = root_before_ops(alloc, tree, root, ops)?;
    if before == *former {
        return Ok(());
    }
    Err(CheckFault::Refused(Refusal::OtherData(*former, before)))
}

/// Whether the operations, undone on the tree that the blocks hold under the root, lead back to the former root.
pub(crate) fn lead_back(
    alloc: Global,
    blocks: &Blocks,
    former: &Cid,
    root: &Cid,
    ops: &OpList,
) -> Result<(), CheckFault>
    requires kind { IsNodeLink root.now }
    requires apart { AreApart ops.now }
    ensures leads { OnOk result (LeadsBy ops.now blocks.now former.now root.now) }
    ensures stops { IfErr result (IsStopBy ops.now blocks.now former.now root.now) }
{
    let tree = tree_at_hand(alloc, blocks, root, ops)?;
    lead_from(alloc, tree, former, root, ops)
}
