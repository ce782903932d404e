//! A commit checked by itself, without its account.

ghost use Rattle.std.specs.Prelude.{◌≡◌, IfOk, IfErr, List, ℕ, length};
ghost use Rattle.commit_check.specs.Refusing.{IsMemory};
ghost use Rattle.commit_check.specs.Checking.{IsAccepted, IsCoveredAlone, IsRefused, IsRefusedWith, Replays, has_gap, start_of};
ghost use Rattle.commit_check.specs.Refusing.{RefusesWith};
ghost use Rattle.at_event.specs.declared.refusal.Refusal.{Refusal};

use crate::checked::Checked;
use crate::content::Content;
use crate::edits::edits;
use crate::fault::CheckFault;
use crate::leading::{lead_from, tree_at_hand};
use crate::linking::some_lacks_prev;
use crate::opening::commit_content;
use at_cid::Cid;
use at_event::{CommitEvent, Refusal};
use mst_node::empty_root;
use std::alloc::Global;

fn start_of(event: &CommitEvent) -> Cid
    ensures { result ≡ start_of event.now }
{
    match event.prev_data {
        Some(prev_data) => prev_data,
        None => empty_root(),
    }
}

fn has_gap(event: &CommitEvent) -> bool
    ensures { result ≡ has_gap event.now }
{
    (event.since.is_some() && event.prev_data.is_none()) || some_lacks_prev(event.ops.as_slice())
}

/// Checks a commit by itself: against its own `prevData`, or against the empty tree where there is none.
///
/// It is refused with the first refusal of [`open_commit`], none being stale, or else of [`crate::link`], where a gap is
/// an event that follows on another but has no `prevData`, or a change that doesn't say of what. (Sync specification,
/// "Commit validation", with inductive validation by operation inversion.)
#[tactic(auto, using(crate::proofs::Objects::content_root_is_node, crate::proofs::Accepting::by_content))]
pub fn check(alloc: Global, event: &CommitEvent) -> Result<Checked, CheckFault>
    ensures accepted { IfOk result (λ checked. IsAccepted event.now checked.from checked.to) }
    ensures counted { IfOk result (λ checked. checked.ops ≡ length event.now.ops) }
    ensures refused { IfErr result (IsRefused event.now) }
    ensures exact { (refusal : Refusal) → IsRefusedWith event.now refusal
        → RefusesWith refusal result }
    ensures only { (from to : List ℕ) → IsAccepted event.now from to → IfErr result IsMemory }
    ensures replays { IfOk result (λ checked. Replays event.now checked.from checked.to) }
    ensures covered { IsCoveredAlone event.now → IfErr result IsMemory }
{
    let content = commit_content(alloc, event)?;
    if has_gap(event) {
        return Err(CheckFault::Refused(Refusal::Gap));
    }
    let from = start_of(event);
    let ops = edits(alloc, event)?;
    let Content { car, data_root: to } = content;
    car.blocks.ghost_linked();
    let tree = tree_at_hand(alloc, &car.blocks, &to, &ops)?;
    // The tree has all that is wanted of the blocks.
    drop(car);
    lead_from(alloc, tree, &from, &to, &ops)?;
    Ok(Checked {
        from,
        to,
        ops: event.ops.len() as u32,
    })
}
