//! Whether operations are guarded.

ghost use Rattle.std.specs.Prelude.{◌↔◌, IsTrue};
ghost use Rattle.mst_list.specs.Edits.{GuardedBy, IsGuarded};

use crate::item::Item;
use crate::item_list::ItemList;
use crate::op::Op;
use crate::op_list::OpList;
use crate::scanning::{is_clear, value_of};

fn guards(items: &[Item], op: &Op) -> bool
    ensures { IsTrue result
        ↔ GuardedBy op.entry.now.key op.entry.now.was op.entry.now.now items.now }
{
    let key = op.key.as_slice();
    if op.was.is_none() {
        is_clear(items, key)
    } else if op.now.is_none() {
        value_of(items, key).is_some() || is_clear(items, key)
    } else {
        value_of(items, key).is_some()
    }
}

/// Whether each operation's edit means the same, whatever the holes of the list hold: each updated key is visible, no
/// hole stands beside a created key or in its gap, and none in the gap of a deleted key.
pub fn guarded(list: &ItemList, ops: &OpList) -> bool
    ensures { IsTrue result ↔ IsGuarded list.now ops.now }
{
    for op in ops.as_slice() {
        if !guards(list.as_slice(), op) {
            return false;
        }
    }
    true
}
