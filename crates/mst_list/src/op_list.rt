//! The operations of a commit.

ghost use Rattle.std.specs.Prelude.{◌≡◌, ◌<◌, ◌-◌, ◌∷◌, ◌++◌, [], length, ◌==◌, slice_get, option_map, OnOk, OnErr};
ghost use Rattle.mst_list.specs.Edits.{IsFormedOp, AreFormedOps};
ghost use Rattle.mst_list.specs.declared.limits.TheConstants.{OP_COUNTS};

use crate::op::Op;
use at_cid::Memory;
use std::alloc::Global;
use std::marker::Model;

/// Fewer than [`OP_COUNTS`](crate::OP_COUNTS) operations, in order. Each has a key of 1 to [`MOST_KEY_BYTES`](crate::MOST_KEY_BYTES) bytes, and does something.
#[derive(Debug, Drop)]
pub struct OpList {
    pub(crate) ops: Vec<Op>,
}

impl Model for OpList {
    ghost use Rattle.std.specs.Prelude.{List, length, ◌<◌};
    ghost use Rattle.mst_list.specs.declared.limits.TheConstants.{OP_COUNTS};
    ghost use Rattle.mst_list.specs.declared.op.Op.{Op};
    ghost use Rattle.mst_list.specs.Edits.{AreFormedOps};

    ghost Value = { List Op };

    ghost view = { λ a. a.ops.items };

    ghost invariant = { λ a. (length a.ops.items < OP_COUNTS) × AreFormedOps a.ops.items };
}

impl OpList {
    /// No operations. Takes no memory.
    pub fn new(alloc: Global) -> OpList
        ensures { result ≡ [] }
    {
        OpList {
            ops: Vec::new(alloc),
        }
    }

    /// The operations.
    pub fn as_slice(&self) -> &[Op]
        ensures value { result.now ≡ self.now }
        ensures few { length self.now < OP_COUNTS }
        ensures formed { AreFormedOps self.now }
    {
        self.ops.as_slice()
    }

    /// How many operations there are.
    pub fn len(&self) -> usize
        ensures { result ≡ length self.now }
    {
        self.ops.len()
    }

    /// Whether there are none.
    pub fn is_empty(&self) -> bool
        ensures { result ≡ (length self.now == 0) }
    {
        self.ops.is_empty()
    }

    /// The operation at a place, counted from 0.
    pub fn get(&self, i: usize) -> Option<&Op>
        ensures { option_map (λ op. op.now) result ≡ slice_get self.now i }
    {
        self.ops.get(i)
    }

    /// Adds an operation at the end. `Op::is_formed` tests the condition on it. After [`Memory`] the list is as it was.
    pub fn push(&mut self, op: Op) -> Result<(), Memory>
        requires formed { IsFormedOp op }
        requires few { length self.old < OP_COUNTS - 1 }
        ensures ok { OnOk result (self.new ≡ self.old ++ op ∷ []) }
        ensures err { OnErr result (self.new ≡ self.old) }
    {
        self.ops.push(op)?;
        Ok(())
    }
}
