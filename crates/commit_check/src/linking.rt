//! Whether a commit follows on what is expected, and its blocks show the step.

ghost use Rattle.std.specs.Prelude.{◌≡◌, ◌≢◌, IfErr, OnOk, None, false};
ghost use Rattle.std.specs.List.{list_any};
ghost use Rattle.at_event.specs.declared.refusal.Refusal.{Refusal};
ghost use Rattle.event_checks.specs.Lines.{first_of};
ghost use Rattle.event_checks.specs.Table.{field_lines};
ghost use Rattle.commit_check.specs.Linking.{IsUnlinked};
ghost use Rattle.commit_check.specs.Opening.{IsOpened};
ghost use Rattle.commit_check.specs.Refusing.{IsMemory, IsUnjudged, RefusesWith};
ghost use Rattle.commit_check.specs.Step.{edits_of, IsCoveredBy, Leads, ReplaysBy, is_gap, is_since, lacks_prev, root_before, strays};
ghost use Rattle.at_car.specs.Sifting.{is_root};
ghost use Rattle.commit_check.specs.declared.expect.Expect.{Expect};
ghost use Rattle.commit_check.specs.declared.fault.CheckFault.{CheckFault};

use crate::edits::edits;
use crate::expect::Expect;
use crate::fault::CheckFault;
use crate::leading::lead_back;
use crate::opened::Opened;
use at_cid::Cid;
use at_event::{Action, CommitEvent, EventOp, Refusal};
use at_syntax::Tid;
use mst_node::empty_root;
use std::alloc::Global;

fn is_rev(since: Option<Tid>, rev: Tid) -> bool
    ensures { result ≡ is_since since rev }
{
    match since {
        Some(since) => since == rev,
        None => false,
    }
}

fn is_root(prev_data: Option<Cid>, root: Cid) -> bool
    ensures { result ≡ is_root prev_data root }
{
    match prev_data {
        Some(prev_data) => prev_data == root,
        None => false,
    }
}

/// Whether a change doesn't say what was there.
fn lacks_prev(op: &EventOp) -> bool
    ensures { result ≡ lacks_prev op.entry.now }
{
    match op.action {
        Action::Update | Action::Delete => op.prev.is_none(),
        Action::Create | Action::Other => false,
    }
}

pub(crate) fn some_lacks_prev(ops: &[EventOp]) -> bool
    ensures { result ≡ list_any lacks_prev ops.now }
{
    ops.iter().any(lacks_prev)
}

fn strays(event: &CommitEvent, expect: &Expect) -> bool
    ensures { result ≡ strays event.now expect.now }
{
    match expect {
        Expect::Start => {
            event.since.is_some()
                || (event.prev_data.is_some() && !is_root(event.prev_data, empty_root()))
        }
        Expect::After(head) => {
            !(is_rev(event.since, head.rev) && is_root(event.prev_data, head.data_root))
        }
        Expect::Lost => true,
    }
}

fn root_before(expect: &Expect) -> Cid
    ensures { result ≡ root_before expect.now }
{
    match expect {
        Expect::After(head) => head.data_root,
        Expect::Start | Expect::Lost => empty_root(),
    }
}

/// Whether a commit that was opened follows on what is expected of its account, and its blocks show the step from there.
///
/// It is refused with the first of these that applies: a gap before it, or a change that doesn't say of what; a tree whose
/// block is missing or at fault; an operation that the tree doesn't show; one that the blocks don't cover; another root
/// after undoing the operations than the expected one.
#[tactic(auto, using(crate::proofs::Unjudged::by_gap, crate::proofs::Objects::root_is_node, crate::proofs::Exact::by_link))]
pub fn link(
    alloc: Global,
    event: &CommitEvent,
    opened: &Opened,
    expect: &Expect,
) -> Result<(), CheckFault>
    requires shown { first_of (field_lines event.now) ≡ None }
    requires opened { IsOpened event.now opened.now }
    ensures follows { OnOk result (is_gap event.now expect.now ≡ false) }
    ensures leads { OnOk result (Leads event.now opened.now.car.blocks
        (root_before expect.now) opened.now.head.data_root) }
    ensures refused { IfErr result (IsUnlinked event.now opened.now expect.now) }
    ensures only { is_gap event.now expect.now ≡ false
        → Leads event.now opened.now.car.blocks (root_before expect.now) opened.now.head.data_root
        → IfErr result IsMemory }
    ensures exact { (refusal : Refusal)
        → IsUnlinked event.now opened.now expect.now (CheckFault.Refused refusal)
        → RefusesWith refusal result }
    ensures known { OnOk result (expect.now ≢ Expect.Lost) }
    ensures unjudged { IfErr result IsUnjudged }
    ensures replays { OnOk result (ReplaysBy (edits_of event.now) opened.now.car.blocks
        (root_before expect.now) opened.now.head.data_root) }
    ensures covered { is_gap event.now expect.now ≡ false
        → IsCoveredBy (edits_of event.now) opened.now.car.blocks
        (root_before expect.now) opened.now.head.data_root → IfErr result IsMemory }
{
    if strays(event, expect) || some_lacks_prev(event.ops.as_slice()) {
        return Err(CheckFault::Refused(Refusal::Gap));
    }
    let ops = edits(alloc, event)?;
    opened.car.blocks.ghost_linked();
    let former = root_before(expect);
    lead_back(
        alloc,
        &opened.car.blocks,
        &former,
        &opened.head.data_root,
        &ops,
    )
}
