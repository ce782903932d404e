//! Undoing operations on a list with holes.

ghost use Rattle.std.specs.Prelude.{◌≡◌, IfOk, IfErr, OnOk};
ghost use Rattle.mst_list.specs.declared.undoing.UndoFault as fault;
ghost use Rattle.mst_list.specs.Edits.{undone, AllAgree, IsGuarded};
ghost use Rattle.mst_list.specs.Faults.{IsCaused, UndoesExactly};

use crate::editing::put;
use crate::item::Item;
use crate::item_list::{ItemList, copy_items};
use crate::judging::judge_all;
use crate::op::Op;
use crate::op_list::OpList;
use at_cid::Memory;
use std::alloc::Global;
use thiserror::Error;

/// Why operations can't be undone. The operation at the place, counted from 0, is the first that is to blame.
#[derive(Clone, Copy, Debug, PartialEq, Eq, Error)]
pub enum UndoFault {
    /// The list shows that the operation wasn't the last one at its key.
    #[error("operation {0} disagrees with the list")]
    OtherOp(u32),
    /// A hole may hide what the operation did.
    #[error("operation {0} is not covered")]
    NotCovered(u32),
    #[error("out of memory")]
    Memory,
}

impl From<Memory> for UndoFault {
    ghost from_gives = { λ _ e. e ≡ fault.UndoFault.Memory };

    fn from(_e: Memory) -> UndoFault {
        UndoFault::Memory
    }
}

/// Undoes the operations, the last one first.
fn undo_all(items: &mut Vec<Item>, ops: &[Op]) -> Result<(), Memory>
    ensures { OnOk result (items.new.items ≡ undone items.old.items ops.now) }
{
    let mut left = ops.len();
    while left > 0 {
        left -= 1;
        let op = &ops[left];
        put(items, &op.key, op.was)?;
    }
    Ok(())
}

/// The list as it was before the operations, of which each has to agree with the list and to be guarded in it. The keys
/// of the operations are to differ; else each is judged on the list as it is.
pub fn undo_list(alloc: Global, list: &ItemList, ops: &OpList) -> Result<ItemList, UndoFault>
    ensures undone { IfOk result (λ left. left ≡ undone list.now ops.now) }
    ensures agree { OnOk result (AllAgree list.now ops.now) }
    ensures guarded { OnOk result (IsGuarded list.now ops.now) }
    ensures fault { IfErr result (λ cause. IsCaused list.now ops.now cause) }
    ensures exact { UndoesExactly list.now ops.now result }
{
    judge_all(list.as_slice(), ops.as_slice())?;
    let mut items = copy_items(alloc, list.as_slice())?;
    undo_all(&mut items, ops.as_slice())?;
    Ok(ItemList { items })
}
