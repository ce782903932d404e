//! What the fields of a commit event show.

ghost use Rattle.std.specs.Prelude.{◌≡◌, ◌↔◌, IfOk, IsTrue, None};
ghost use Rattle.std.specs.List.{list_all};
ghost use Rattle.std.specs.List.Sorted.{IsStrictlySortedBy};
ghost use Rattle.std.specs.Str.{bytes_eq};
ghost use Rattle.event_checks.specs.Table.{field_lines, has_path, is_op, paths_of};
ghost use Rattle.event_checks.specs.Lines.{first_of};
ghost use Rattle.at_cid.specs.Distinct.{all_differ};
ghost use Rattle.at_cid.specs.Order.{key_cmp};

use at_cid::{Memory, compare};
use at_event::{Action, CommitEvent, EventOp, Refusal};
use at_syntax::path_ok;
use event_checks::{MOST_COMMIT_BYTES, MOST_OPS};
use std::alloc::Global;
use std::collections::BTreeSet;

fn are_paths(ops: &[EventOp]) -> bool
    ensures { result ≡ list_all has_path ops.now }
{
    ops.iter().all(|op| path_ok(op.path.as_str()))
}

/// Whether the links of an operation fit its action: a create has a `cid` and no `prev`, an update a `cid`, a delete no `cid`.
fn is_op(op: &EventOp) -> bool
    ensures { result ≡ is_op op.entry.now }
{
    match op.action {
        Action::Create => op.cid.is_some() && op.prev.is_none(),
        Action::Update => op.cid.is_some(),
        Action::Delete => op.cid.is_none(),
        Action::Other => false,
    }
}

fn are_ops(ops: &[EventOp]) -> bool
    ensures { result ≡ list_all is_op ops.now }
{
    ops.iter().all(is_op)
}

/// Whether each path is above the one before it, in the order of bytes.
fn paths_ascend(ops: &[EventOp]) -> bool
    ensures { IsTrue result ↔ IsStrictlySortedBy key_cmp (paths_of ops.now) }
{
    ops.is_sorted_by(|a, b| compare(a.path.as_bytes(), b.path.as_bytes()).is_lt())
}

/// Whether no path stands twice. Paths that ascend differ; of others, a search tree holds those behind the one at hand.
fn paths_differ(alloc: Global, ops: &[EventOp]) -> Result<bool, Memory>
    ensures { IfOk result (λ differ. differ ≡ all_differ bytes_eq (paths_of ops.now)) }
{
    if paths_ascend(ops) {
        return Ok(true);
    }
    let mut seen = BTreeSet::new(alloc);
    let mut left = ops.len();
    while left > 0 {
        left -= 1;
        if !seen.insert(ops[left].path.as_bytes())? {
            return Ok(false);
        }
    }
    Ok(true)
}

/// The first refusal that the fields show.
pub(crate) fn field_refusal(alloc: Global, event: &CommitEvent) -> Result<Option<Refusal>, Memory>
    ensures { IfOk result (λ refusal. refusal ≡ first_of (field_lines event.now)) }
{
    let ops = event.ops.as_slice();
    if event.too_big {
        return Ok(Some(Refusal::TooBig));
    }
    if event.blocks.len() > MOST_COMMIT_BYTES {
        return Ok(Some(Refusal::BlocksTooLong));
    }
    if ops.len() > MOST_OPS {
        return Ok(Some(Refusal::TooManyOps));
    }
    if !are_paths(ops) {
        return Ok(Some(Refusal::BadPath));
    }
    if !paths_differ(alloc, ops)? {
        return Ok(Some(Refusal::RepeatedPath));
    }
    if !are_ops(ops) {
        return Ok(Some(Refusal::BadOp));
    }
    Ok(None)
}
