//! Playing the operations of a commit on a map where it stands.

ghost use Rattle.std.specs.Prelude.{◌≡◌, ◌<◌, ◌≤◌, List, length, take, IfErr, OnOk, OnErr};
ghost use Rattle.mst_list.specs.declared.item.Item.{Item};
ghost use Rattle.mst_list.specs.declared.limits.TheConstants.{OP_COUNTS};
ghost use Rattle.mst_list.specs.Edits.{AreApart, Plays, value_at};
ghost use Rattle.mst_list.specs.Faults.{IsPlayFault};
ghost use Rattle.mst_list.specs.Lists.{Ascends, KeysOnly};
ghost use Rattle.mst_list.specs.Maps.{AllApply, IsJudgedFault};
ghost use Rattle.whole_map.specs.Turns.{ChangeApplies, ChangesApply, all_changed, all_created, changed, created, taken_back};

use crate::whole_map::WholeMap;
use at_cid::Memory;
use mst_list::{KeyBytes, Op, OpList, PlayFault};

impl WholeMap {
    // Whether each operation finds at its key what it says was there, and else the first that doesn't.
    fn judge(&self, ops: &[Op]) -> Result<(), PlayFault>
        requires { length ops.now < OP_COUNTS }
        ensures apply { OnOk result (AllApply self.now ops.now) }
        ensures fault { IfErr result (IsJudgedFault self.now ops.now) }
    {
        for (i, op) in ops.iter().enumerate() {
            if self.value_of(op.key.as_slice()) != op.was {
                return Err(PlayFault::Clash(i as u32));
            }
        }
        Ok(())
    }

    // What an operation creates.
    fn create(&mut self, op: &Op) -> Result<(), Memory>
        requires { value_at op.now.key self.old ≡ op.now.was }
        ensures created { OnOk result (self.new ≡ created op.entry.now self.old) }
        ensures same { OnErr result (self.new ≡ self.old) }
    {
        match (op.was, op.now) {
            (None, Some(link)) => self.insert(KeyBytes::of(&op.key)?, link),
            (None, None) => Ok(()),
            (Some(_), _) => Ok(()),
        }
    }

    // What an operation changes or takes out. Takes no memory.
    fn change(&mut self, op: &Op)
        requires { ChangeApplies op.now.was (value_at op.now.key self.old) }
        ensures { self.new ≡ changed op.entry.now self.old }
    {
        let key = op.key.as_slice();
        match (op.was, op.now) {
            (Some(_), Some(link)) => self.set(key, link),
            (Some(_), None) => self.remove(key),
            (None, _) => {}
        }
    }

    // Takes out what an operation created. Takes no memory.
    fn take_back(&mut self, op: &Op)
        ensures { self.new ≡ taken_back op.entry.now self.old }
    {
        let key = op.key.as_slice();
        match (op.was, self.value_of(key)) {
            (None, Some(_)) => self.remove(key),
            (None, None) => {}
            (Some(_), _) => {}
        }
    }

    // What operations create, up to the first for which there is no memory.
    fn create_some(&mut self, ops: &[Op]) -> usize
        requires ascends { Ascends self.old }
        requires apply { AllApply self.old ops.now }
        requires apart { AreApart ops.now }
        ensures most { result ≤ length ops.now }
        ensures created { self.new ≡ all_created self.old (take result ops.now) }
    {
        for (i, op) in ops.iter().enumerate() {
            match self.create(op) {
                Ok(()) => {}
                Err(_) => return i,
            }
        }
        ops.len()
    }

    // Takes out what so many operations created, those of the last one first. Takes no memory.
    fn take_back_some(&mut self, ops: &[Op], count: usize)
        requires { count ≤ length ops.now }
        ensures { (s : List Item) → Ascends s → KeysOnly s → AllApply s ops.now → AreApart ops.now
            → self.old ≡ all_created s (take count ops.now) → self.new ≡ s }
    {
        let mut left = count;
        while left > 0 {
            left -= 1;
            self.take_back(&ops[left]);
        }
    }

    // What all operations create. After [`Memory`] the map is as it was.
    fn create_all(&mut self, ops: &[Op]) -> Result<(), Memory>
        requires apply { AllApply self.old ops.now }
        requires apart { AreApart ops.now }
        ensures created { OnOk result (self.new ≡ all_created self.old ops.now) }
        ensures same { OnErr result (self.new ≡ self.old) }
    {
        let _map = self.pieces();
        let count = self.create_some(ops);
        if count < ops.len() {
            self.take_back_some(ops, count);
            return Err(Memory);
        }
        Ok(())
    }

    // What all operations change or take out. Takes no memory.
    fn change_all(&mut self, ops: &[Op])
        requires ascends { Ascends self.old }
        requires apply { ChangesApply self.old ops.now }
        requires apart { AreApart ops.now }
        ensures { self.new ≡ all_changed self.old ops.now }
    {
        for op in ops {
            self.change(op);
        }
    }

    /// Plays operations on the map where it stands: the creates first, which alone take memory. After a fault the map is as it
    /// was. An operation takes binary searches and moves one piece.
    ///
    /// The keys of the operations are to differ.
    pub fn play(&mut self, ops: &OpList) -> Result<(), PlayFault>
        requires { AreApart ops.now }
        ensures plays { OnOk result (Plays self.old ops.now self.new) }
        ensures fault { IfErr result
            (λ cause. IsPlayFault self.old ops.now cause × (self.new ≡ self.old)) }
    {
        let _map = self.pieces();
        let ops = ops.as_slice();
        self.judge(ops)?;
        self.create_all(ops)?;
        self.change_all(ops);
        Ok(())
    }
}
