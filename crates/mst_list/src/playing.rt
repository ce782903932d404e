//! Playing operations on a list.

ghost use Rattle.std.specs.Prelude.{◌≡◌, ◌<◌, length, IfOk, IfErr, OnOk};
ghost use Rattle.mst_list.specs.declared.limits.TheConstants.{OP_COUNTS};
ghost use Rattle.mst_list.specs.declared.playing.PlayFault as fault;
ghost use Rattle.mst_list.specs.Edits.{Plays};
ghost use Rattle.mst_list.specs.Faults.{IsPlayFault, PlaysExactly};

use crate::editing::put;
use crate::item::Item;
use crate::item_list::{ItemList, copy_items};
use crate::op::Op;
use crate::op_list::OpList;
use crate::scanning::value_of;
use at_cid::Memory;
use std::alloc::Global;
use thiserror::Error;

/// Why operations can't be played.
#[derive(Clone, Copy, Debug, PartialEq, Eq, Error)]
pub enum PlayFault {
    /// The operation at this place, counted from 0, is the first that doesn't apply.
    #[error("operation {0} does not apply")]
    Clash(u32),
    #[error("out of memory")]
    Memory,
}

impl From<Memory> for PlayFault {
    ghost from_gives = { λ _ e. e ≡ fault.PlayFault.Memory };

    fn from(_e: Memory) -> PlayFault {
        PlayFault::Memory
    }
}

fn play_all(items: &mut Vec<Item>, ops: &[Op]) -> Result<(), PlayFault>
    requires { length ops.now < OP_COUNTS }
    ensures plays { OnOk result (Plays items.old.items ops.now items.new.items) }
    ensures fault { IfErr result (λ cause. IsPlayFault items.old.items ops.now cause) }
{
    for (i, op) in ops.iter().enumerate() {
        if value_of(items.as_slice(), op.key.as_slice()) != op.was {
            return Err(PlayFault::Clash(i as u32));
        }
        put(items, &op.key, op.now)?;
    }
    Ok(())
}

/// The list after the operations, one after another: a create needs its key absent, and an update or delete needs it with
/// the value `was`. The list is to be a map, without holes and in order, and the keys of the operations are to differ.
pub fn play(alloc: Global, list: &ItemList, ops: &OpList) -> Result<ItemList, PlayFault>
    ensures plays { IfOk result (λ played. Plays list.now ops.now played) }
    ensures fault { IfErr result (λ cause. IsPlayFault list.now ops.now cause) }
    ensures exact { PlaysExactly list.now ops.now result }
{
    let mut items = copy_items(alloc, list.as_slice())?;
    play_all(&mut items, ops.as_slice())?;
    Ok(ItemList { items })
}
