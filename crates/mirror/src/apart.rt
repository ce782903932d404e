//! Whether the operations of a commit are on different keys.

ghost use Rattle.std.specs.Prelude.{◌≡◌, ◌↔◌, IfOk, IsTrue};
ghost use Rattle.std.specs.Str.{bytes_eq};
ghost use Rattle.at_cid.specs.Distinct.{all_differ};
ghost use Rattle.mst_list.specs.Edits.{AreApart};
ghost use Rattle.mirror.specs.Playing.{keys_of};

use at_cid::Memory;
use mst_list::{Op, OpList};
use std::alloc::Global;
use std::collections::BTreeSet;

// A search tree holds the keys behind the one at hand: a message of a stream that no relay wrote may have many operations.
fn keys_differ(alloc: Global, ops: &[Op]) -> Result<bool, Memory>
    ensures { IfOk result (λ differ. differ ≡ all_differ bytes_eq (keys_of ops.now)) }
{
    let mut seen = BTreeSet::new(alloc);
    let mut left = ops.len();
    while left > 0 {
        left -= 1;
        let key = ops[left].key.as_slice();
        if !seen.insert(key)? {
            return Ok(false);
        }
    }
    Ok(true)
}

/// Whether the keys of the operations differ.
pub(crate) fn are_apart(alloc: Global, ops: &OpList) -> Result<bool, Memory>
    ensures { IfOk result (λ apart. IsTrue apart ↔ AreApart ops.now) }
{
    keys_differ(alloc, ops.as_slice())
}
