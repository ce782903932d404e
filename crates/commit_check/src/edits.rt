//! The operations of an event as edits of a map.

ghost use Rattle.std.specs.Prelude.{◌≡◌, ◌≤◌, IfOk, None, map, true, false, length};
ghost use Rattle.std.specs.List.{list_all, list_any};
ghost use Rattle.commit_check.specs.Step.{edit_of, edits_of, lacks_prev};
ghost use Rattle.event_checks.specs.Lines.{first_of};
ghost use Rattle.event_checks.specs.Table.{field_lines, has_path, is_op};
ghost use Rattle.event_checks.specs.declared.limits.TheConstants.{MOST_OPS};
ghost use Rattle.mst_list.specs.Edits.{AreApart, AreFormedOps, IsFormedOp};

use at_cid::{Memory, Octets, ghost_link_or_none};
use at_event::{CommitEvent, EventOp};
use mst_list::{Op, OpList};
use std::alloc::Global;

/// One operation, whose path becomes a key.
#[tactic(auto, using(crate::proofs::Keys::path_key, crate::proofs::Keys::acts))]
fn edit(alloc: Global, op: &EventOp) -> Result<Op, Memory>
    requires path { has_path op.now ≡ true }
    requires links { is_op op.now ≡ true }
    requires prev { lacks_prev op.now ≡ false }
    ensures edit { IfOk result (λ made. made ≡ edit_of op.now) }
    ensures formed { IfOk result IsFormedOp }
{
    ghost_link_or_none(&op.prev);
    ghost_link_or_none(&op.cid);
    let key = Octets::from_slice(alloc, op.path.as_bytes())?;
    Ok(Op {
        key,
        was: op.prev,
        now: op.cid,
    })
}

fn edit_all(alloc: Global, ops: &[EventOp]) -> Result<OpList, Memory>
    requires few { length ops.now ≤ MOST_OPS }
    requires paths { list_all has_path ops.now ≡ true }
    requires links { list_all is_op ops.now ≡ true }
    requires prevs { list_any lacks_prev ops.now ≡ false }
    ensures { IfOk result (λ made. made ≡ map edit_of ops.now) }
{
    let mut made = OpList::new(alloc);
    for op in ops {
        made.push(edit(alloc, op)?)?;
    }
    Ok(made)
}

/// All operations of an event, in their order.
#[tactic(auto, using(crate::proofs::Apart::apart_shown))]
pub(crate) fn edits(alloc: Global, event: &CommitEvent) -> Result<OpList, Memory>
    requires shown { first_of (field_lines event.now) ≡ None }
    requires prevs { list_any lacks_prev event.now.ops ≡ false }
    ensures edits { IfOk result (λ made. made ≡ edits_of event.now) }
    ensures formed { IfOk result AreFormedOps }
    ensures apart { IfOk result AreApart }
{
    let made = edit_all(alloc, event.ops.as_slice())?;
    let _edits = made.as_slice();
    Ok(made)
}
