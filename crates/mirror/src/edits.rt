//! The operations of a commit as edits of a map.

ghost use Rattle.std.specs.Prelude.{◌≡◌, IfOk, IsTrue, IsErrOf, Some, None, Ok, true, false, map, length, take, ◌<◌};
ghost use Rattle.std.specs.List.{list_all};
ghost use Rattle.commit_check.specs.Step.{edit_of, edits_of};
ghost use Rattle.mst_list.specs.Edits.{AreApart, AreFormedOps, IsFormedOp};
ghost use Rattle.mirror.specs.Held.{is_edit, states_edit};
ghost use Rattle.mirror.specs.Playing.{IsEditsOf, IsPlayableAs};

use crate::apart::are_apart;
use at_cid::{Memory, Octets};
use at_event::{Action, CommitEvent, EventOp};
use mst_list::{OP_COUNTS, Op, OpList};
use std::alloc::Global;

fn is_edit(op: &EventOp) -> bool
    ensures { result ≡ is_edit op.now }
{
    match op.action {
        Action::Create => op.prev.is_none() && op.cid.is_some(),
        Action::Update => op.prev.is_some() && op.cid.is_some(),
        Action::Delete => op.prev.is_some() && op.cid.is_none(),
        Action::Other => false,
    }
}

fn edit(alloc: Global, op: &EventOp) -> Result<Op, Memory>
    ensures { IfOk result (λ made. made ≡ edit_of op.now) }
{
    let key = Octets::from_slice(alloc, op.path.as_bytes())?;
    Ok(Op {
        key,
        was: op.prev,
        now: op.cid,
    })
}

// The operations, where each states an edit and has the form of one.
fn edit_all(alloc: Global, ops: &[EventOp]) -> Result<Option<OpList>, Memory>
    ensures { IfOk result (IsEditsOf ops.now) }
{
    let mut made = OpList::new(alloc);
    for op in ops {
        if !is_edit(op) {
            return Ok(None);
        }
        let edit = edit(alloc, op)?;
        if !edit.is_formed() {
            return Ok(None);
        }
        // No message that memory holds has so many.
        if made.len() >= OP_COUNTS - 1 {
            return Err(Memory);
        }
        made.push(edit)?;
    }
    let _edits = made.as_slice();
    Ok(Some(made))
}

/// The operations of a commit as edits of a map, where they can be played: each states an edit, and their keys differ.
pub(crate) fn edits(alloc: Global, commit: &CommitEvent) -> Result<Option<OpList>, Memory>
    ensures { IfOk result (IsPlayableAs commit.now) }
{
    let Some(made) = edit_all(alloc, commit.ops.as_slice())? else {
        return Ok(None);
    };
    if are_apart(alloc, &made)? {
        Ok(Some(made))
    } else {
        Ok(None)
    }
}
