//! What an operation is to a list.

ghost use Rattle.std.specs.Prelude.{◌≡◌, ◌<◌, length, List, false, OnOk, IfErr};
ghost use Rattle.mst_list.specs.declared.item.Item.{Item};
ghost use Rattle.mst_list.specs.declared.limits.TheConstants.{OP_COUNTS};
ghost use Rattle.mst_list.specs.Edits.{value_at};
ghost use Rattle.mst_list.specs.Faults.{clear_behind, IsJudged, AllFine, IsCaused};

use crate::item::Item;
use crate::op::Op;
use crate::scanning::{is_clear, value_of};
use crate::undoing::UndoFault;
use at_cid::Cid;

/// Whether an operation can be undone on a list.
#[derive(Clone, Copy, Debug, PartialEq, Eq)]
pub enum Verdict {
    /// The list holds what the operation left, and no hole can hide a part of it.
    Fine,
    /// The list shows that the operation wasn't the last one at its key.
    Other,
    /// A hole may hide what the operation did.
    Uncovered,
}

/// Judges an operation by the value of its key in a list, and by whether no hole stands beside the key's place there.
pub fn weigh(op: &Op, value: Option<Cid>, clear: bool) -> Verdict
    ensures { (F : List Item) → value ≡ value_at op.entry.now.key F
        → clear ≡ clear_behind false op.entry.now.key F → IsJudged F op.entry.now result }
{
    match (value, op.now) {
        (Some(value), Some(now)) => {
            if value != now {
                Verdict::Other
            } else if op.was.is_none() && !clear {
                Verdict::Uncovered
            } else {
                Verdict::Fine
            }
        }
        (None, Some(_)) => {
            if clear {
                Verdict::Other
            } else {
                Verdict::Uncovered
            }
        }
        (Some(_), None) => Verdict::Other,
        (None, None) => {
            if clear {
                Verdict::Fine
            } else {
                Verdict::Uncovered
            }
        }
    }
}

fn judge(items: &[Item], op: &Op) -> Verdict
    ensures { IsJudged items.now op.entry.now result }
{
    let key = op.key.as_slice();
    weigh(op, value_of(items, key), is_clear(items, key))
}

/// Whether each operation is fine, and else the first fault.
pub fn judge_all(items: &[Item], ops: &[Op]) -> Result<(), UndoFault>
    requires { length ops.now < OP_COUNTS }
    ensures fine { OnOk result (AllFine items.now ops.now) }
    ensures fault { IfErr result (λ fault. IsCaused items.now ops.now fault) }
{
    for (i, op) in ops.iter().enumerate() {
        match judge(items, op) {
            Verdict::Fine => {}
            Verdict::Other => return Err(UndoFault::OtherOp(i as u32)),
            Verdict::Uncovered => return Err(UndoFault::NotCovered(i as u32)),
        }
    }
    Ok(())
}
