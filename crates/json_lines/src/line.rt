//! The line of one operation.

ghost use Rattle.std.specs.Prelude.{◌≡◌, IfOk, OnOk, option_map};
ghost use Rattle.serde_json.specs.View.{members_view, view};
ghost use Rattle.json_text.specs.Values.{put_some};
ghost use Rattle.json_lines.specs.Lines.{op_line, link_value, op_value};

use at_cid::{Cid, Memory, Octets, TEXT_LEN, link_text};
use at_event::EventOp;
use at_syntax::{TID_LEN, Tid};
use json_text::{bytes_of, no_members, put_text, put_value};
use serde_json::{Map, Value};
use std::alloc::Global;

// A link, as the AT Protocol's data model has it in JSON.
fn link_value(alloc: Global, link: &Cid) -> Result<Value, Memory>
    ensures { IfOk result (λ value. view value ≡ link_value link.now) }
{
    let mut room = [0; TEXT_LEN];
    let mut members = no_members(alloc);
    put_text(alloc, &mut members, "$link", link_text(link, &mut room))?;
    Ok(Value::Object(members))
}

// Puts a link among the other members, where there is one.
fn put_link(
    alloc: Global,
    members: &mut Map<String, Value>,
    name: &str,
    link: &Option<Cid>,
) -> Result<(), Memory>
    ensures { OnOk result (members_view members.new.entries
        ≡ put_some name.now (option_map link_value link.now)
        (members_view members.old.entries)) }
{
    match link {
        Some(link) => put_value(alloc, members, name, link_value(alloc, link)?),
        None => Ok(()),
    }
}

// The object of an operation.
fn op_value(
    alloc: Global,
    seq: u64,
    did: &str,
    rev: Tid,
    action: &str,
    op: &EventOp,
) -> Result<Value, Memory>
    ensures { IfOk result (λ value. view value ≡ op_value seq did.now rev action.now op.now) }
{
    let mut room = [0; TID_LEN];
    let mut members = no_members(alloc);
    put_text(alloc, &mut members, "action", action)?;
    put_link(alloc, &mut members, "cid", &op.cid)?;
    put_text(alloc, &mut members, "did", did)?;
    put_text(alloc, &mut members, "path", op.path.as_str())?;
    put_link(alloc, &mut members, "prev", &op.prev)?;
    put_text(alloc, &mut members, "rev", rev.write_text(&mut room))?;
    put_value(alloc, &mut members, "seq", Value::from(seq))?;
    Ok(Value::Object(members))
}

/// The line of an operation, with its line feed.
pub(crate) fn line_of(
    alloc: Global,
    seq: u64,
    did: &str,
    rev: Tid,
    action: &str,
    op: &EventOp,
) -> Result<Octets, Memory>
    ensures { IfOk result (λ line. line ≡ op_line seq did.now rev action.now op.now) }
{
    let value = op_value(alloc, seq, did, rev, action, op)?;
    let mut line = bytes_of(alloc, &value)?;
    line.push(b'\n')?;
    Ok(line)
}
