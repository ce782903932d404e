//! Events, read from the fields of their payloads.

ghost use Rattle.std.specs.Prelude.{◌≡◌, map, Some, IfOk, codes};
ghost use Rattle.at_cbor.specs.declared.decoding.TheConstants.{DEPTH};
ghost use Rattle.at_cbor.specs.Kinds.{bytes_in};
ghost use Rattle.at_cbor.specs.Encoding.{Fits};
ghost use Rattle.at_cbor.specs.View.{item_of};
ghost use Rattle.at_form.specs.Forms.{required};
ghost use Rattle.at_event.specs.Table.{action_of, op_of, ops_of, ops_in, too_big_in, commit_event_of, sync_of, account_of, event_body_of, did_key, event_kind_of};
ghost use Rattle.at_event.specs.Flaws.{Reads};
ghost use Rattle.at_event.specs.Writing.{blocks_of, with_blocks};

use crate::commit_box::CommitBox;
use crate::event::{AccountEvent, Body, CommitEvent, SyncEvent};
use crate::flaw::Flaw;
use crate::forms::{
    list, node, optional_link, optional_node, optional_short_text, optional_tid, required,
    required_did, text, tid, truth,
};
use crate::kind::EventKind;
use crate::ops::{Action, EventOp, EventOps};
use at_cbor::{Value, field};
use at_cid::Octets;
use std::alloc::Global;

fn action(text: &str) -> Action
    ensures { result ≡ action_of text.now }
{
    match text {
        "create" => Action::Create,
        "update" => Action::Update,
        "delete" => Action::Delete,
        _ => Action::Other,
    }
}

#[tactic(auto, unfolding(crate::specs::Table::op_of))]
fn read_op(fields: &Value) -> Result<EventOp, Flaw>
    ensures { Reads (λ op. op) result (op_of (item_of fields.now)) }
{
    let action = action(text(required(fields, "action")?)?.as_str());
    let path = text(required(fields, "path")?)?;
    let cid = optional_link(fields, "cid")?;
    let prev = optional_link(fields, "prev")?;
    Ok(EventOp {
        action,
        path: path.try_clone()?,
        cid,
        prev,
    })
}

fn read_ops(alloc: Global, values: &[Value]) -> Result<EventOps, Flaw>
    ensures { Reads (λ ops. ops) result (ops_of (map item_of values.now)) }
{
    let mut ops = EventOps::new(alloc);
    for value in values {
        ops.push(read_op(value)?)?;
    }
    Ok(ops)
}

#[tactic(auto, unfolding(crate::specs::Table::too_big_in))]
fn too_big(fields: &Value) -> Result<bool, Flaw>
    ensures { Reads (λ truth. truth) result (too_big_in (item_of fields.now)) }
{
    match field(fields, "tooBig") {
        Some(value) => truth(value),
        None => Ok(false),
    }
}

#[tactic(auto, unfolding(crate::specs::Table::ops_in))]
fn read_list(alloc: Global, value: &Value) -> Result<EventOps, Flaw>
    ensures { Reads (λ ops. ops) result (ops_in (item_of value.now)) }
{
    read_ops(alloc, list(value)?.as_slice())
}

// Takes the blocks out of a payload, and leaves none in their place.
fn take_blocks(alloc: Global, fields: &mut Value) -> Result<Octets, Flaw>
    requires { Fits (item_of fields.old) DEPTH }
    ensures taken { Reads (λ blocks. blocks) result
        (required bytes_in (item_of fields.old) (codes "blocks")) }
    ensures left { IfOk result
        (λ blocks. item_of fields.old ≡ with_blocks (Some blocks) (item_of fields.new)) }
{
    let Value::Map(fields) = fields else {
        return Err(Flaw::BadField);
    };
    let Some(value) = fields.replace("blocks", Value::Bytes(Octets::new(alloc))) else {
        return Err(Flaw::BadField);
    };
    match value {
        Value::Bytes(blocks) => Ok(blocks),
        _ => Err(Flaw::BadField),
    }
}

#[tactic(auto, unfolding(crate::specs::Table::commit_event_of))]
fn read_commit(alloc: Global, fields: &mut Value) -> Result<CommitEvent, Flaw>
    requires { Fits (item_of fields.old) DEPTH }
    ensures commit { Reads (λ commit. commit) result (commit_event_of (item_of fields.old)) }
    ensures left { IfOk result
        (λ commit. item_of fields.old ≡ with_blocks (Some commit.blocks) (item_of fields.new)) }
{
    let repo = required_did(fields, "repo")?;
    let rev = tid(required(fields, "rev")?)?;
    let since = optional_tid(fields, "since")?;
    let prev_data = optional_node(fields, "prevData")?;
    let commit = node(required(fields, "commit")?)?;
    let too_big = too_big(fields)?;
    let ops = read_list(alloc, required(fields, "ops")?)?;
    let blocks = take_blocks(alloc, fields)?;
    Ok(CommitEvent {
        repo,
        rev,
        since,
        prev_data,
        commit,
        too_big,
        blocks,
        ops,
    })
}

#[tactic(auto, unfolding(crate::specs::Table::sync_of))]
fn read_sync(alloc: Global, fields: &mut Value) -> Result<SyncEvent, Flaw>
    requires { Fits (item_of fields.old) DEPTH }
    ensures sync { Reads (λ sync. sync) result (sync_of (item_of fields.old)) }
    ensures left { IfOk result
        (λ sync. item_of fields.old ≡ with_blocks (Some sync.blocks) (item_of fields.new)) }
{
    let did = required_did(fields, "did")?;
    let rev = tid(required(fields, "rev")?)?;
    let blocks = take_blocks(alloc, fields)?;
    Ok(SyncEvent { did, rev, blocks })
}

#[tactic(auto, unfolding(crate::specs::Table::account_of))]
fn read_account(fields: &Value) -> Result<AccountEvent, Flaw>
    ensures { Reads (λ account. account) result (account_of (item_of fields.now)) }
{
    let active = truth(required(fields, "active")?)?;
    let status = optional_short_text(fields, "status")?;
    Ok(AccountEvent { active, status })
}

/// What an event of this kind says. Its blocks, where it has some, are taken out of the payload.
#[tactic(auto, unfolding(crate::specs::Table::event_body_of), using(crate::proofs::Blocks::no_blocks))]
pub fn read_body(alloc: Global, kind: EventKind, fields: &mut Value) -> Result<Body, Flaw>
    requires { Fits (item_of fields.old) DEPTH }
    ensures body { Reads (λ body. body) result (event_body_of kind (item_of fields.old)) }
    ensures kind { IfOk result (λ body. event_kind_of body ≡ kind) }
    ensures left { IfOk result
        (λ body. item_of fields.old ≡ with_blocks (blocks_of body) (item_of fields.new)) }
{
    match kind {
        EventKind::Commit => {
            let commit = read_commit(alloc, fields)?;
            Ok(Body::Commit(CommitBox::new(alloc, commit)?))
        }
        EventKind::Sync => Ok(Body::Sync(read_sync(alloc, fields)?)),
        EventKind::Identity => Ok(Body::Identity),
        EventKind::Account => Ok(Body::Account(read_account(fields)?)),
    }
}

/// The key under which an event has its DID.
pub fn did_key(kind: EventKind) -> &'static str
    ensures { result.now ≡ did_key kind }
{
    match kind {
        EventKind::Commit => "repo",
        EventKind::Sync | EventKind::Identity | EventKind::Account => "did",
    }
}
