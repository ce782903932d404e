//! The commit objects and the messages of a history.

ghost use Rattle.std.specs.Prelude.{◌≡◌, ◌++◌, ◌+◌, ◌<◌, ◌^◌, codes, map, OnOk, IfOk};
ghost use Rattle.at_cbor.specs.Item.{Item, fields_of, items_of, no_items};
ghost use Rattle.at_cbor.specs.Encoding.{encoding, fields_count, fields_encoding, front_of, items_encoding};
ghost use Rattle.at_cbor.specs.declared.major.Major.{Major};
ghost use Rattle.at_cbor.specs.Taking.{link_item};
ghost use Rattle.at_event.specs.declared.kind.EventKind.{EventKind};
ghost use Rattle.at_event.specs.Writing.{field_encoding, header_of, event_message, number_item};
ghost use Rattle.relay_gen.specs.Messages.{generated_action, back_fields, ends_of, front_fields, middle_fields, generated_object, op_item, payload_of, prev_data, since_item};
ghost use Rattle.relay_gen.specs.Records.{op_of};

use crate::past::Past;
use crate::records::Change;
use at_cbor::{write_int, write_link, write_list_front, write_map_front, write_null, write_text};
use at_cid::{Cid, Memory, Octets};
use at_event::{write_bool_field, write_bytes_field, write_text_field, write_tid_field};
use at_syntax::Tid;
use std::alloc::Global;

/// When each message says that it was made.
const TIME: &str = "2025-01-01T00:00:00Z";

/// What stands where a commit object has its signature.
const SIGNATURE: [u8; 64] = [0; 64];

fn write_link_field(out: &mut Octets, key: &str, link: &Cid) -> Result<(), Memory>
    ensures { OnOk result (out.new ≡ out.old ++ field_encoding key.now (Item.link link.now)) }
{
    write_text(out, key)?;
    write_link(out, link)
}

fn write_child_field(out: &mut Octets, key: &str, link: &Option<Cid>) -> Result<(), Memory>
    ensures { OnOk result (out.new ≡ out.old ++ field_encoding key.now (link_item link.now)) }
{
    write_text(out, key)?;
    match link {
        Some(link) => write_link(out, link),
        None => write_null(out),
    }
}

fn write_int_field(out: &mut Octets, key: &str, number: u64) -> Result<(), Memory>
    requires { number < 2 ^ 63 }
    ensures { OnOk result (out.new ≡ out.old ++ field_encoding key.now (number_item number)) }
{
    write_text(out, key)?;
    write_int(out, number as i64)
}

fn write_null_field(out: &mut Octets, key: &str) -> Result<(), Memory>
    ensures { OnOk result (out.new ≡ out.old ++ field_encoding key.now Item.null) }
{
    write_text(out, key)?;
    write_null(out)
}

/// The commit object of a repository at a revision.
#[tactic(auto, unfolding(crate::specs::Messages::generated_object))]
pub(crate) fn commit_object(
    alloc: Global,
    did: &str,
    rev: Tid,
    data_root: &Cid,
) -> Result<Octets, Memory>
    ensures { IfOk result (λ object. object ≡ generated_object did.now rev data_root.now) }
{
    let mut out = Octets::new(alloc);
    write_map_front(&mut out, 6)?;
    write_text_field(&mut out, "did", did)?;
    write_tid_field(&mut out, "rev", rev)?;
    write_bytes_field(&mut out, "sig", &SIGNATURE)?;
    write_link_field(&mut out, "data", data_root)?;
    write_null_field(&mut out, "prev")?;
    write_int_field(&mut out, "version", 3)?;
    Ok(out)
}

fn action(change: &Change) -> &'static str
    ensures { result.now ≡ generated_action change.entry.now.was change.entry.now.now }
{
    if change.was.is_none() {
        "create"
    } else if change.now.is_none() {
        "delete"
    } else {
        "update"
    }
}

/// Adds the link before, where there is one, and the action.
fn write_ends(out: &mut Octets, change: &Change) -> Result<(), Memory>
    ensures { OnOk result (out.new ≡ out.old
        ++ fields_encoding (fields_of (ends_of change.entry.now.was change.entry.now.now))) }
{
    if let Some(was) = &change.was {
        write_link_field(out, "prev", was)?;
    }
    write_text_field(out, "action", action(change))
}

/// Adds an operation.
#[tactic(auto, unfolding(crate::specs::Messages::op_item))]
fn write_op(out: &mut Octets, change: &Change) -> Result<(), Memory>
    ensures { OnOk result (out.new ≡ out.old ++ encoding (op_item (op_of change.entry.now))) }
{
    write_map_front(out, if change.was.is_some() { 4 } else { 3 })?;
    write_child_field(out, "cid", &change.now)?;
    write_text_field(out, "path", change.path.as_str())?;
    write_ends(out, change)
}

/// Adds operations, one behind the other.
fn write_each(out: &mut Octets, changes: &[Change]) -> Result<(), Memory>
    ensures { OnOk result (out.new ≡ out.old
        ++ items_encoding (items_of (map op_item (map op_of changes.now)))) }
{
    for change in changes {
        write_op(out, change)?;
    }
    Ok(())
}

/// Adds the field of the operations.
fn write_ops(out: &mut Octets, changes: &[Change]) -> Result<(), Memory>
    ensures { OnOk result (out.new ≡ out.old
        ++ field_encoding (codes "ops")
        (Item.list (items_of (map op_item (map op_of changes.now))))) }
{
    write_text(out, "ops")?;
    write_list_front(out, changes.len())?;
    write_each(out, changes)
}

/// Adds the field of blobs, of which there are none.
#[tactic(auto, unfolding(at_cbor::specs::Encoding::info_of, at_cbor::specs::Encoding::tail_of))]
fn write_blobs(out: &mut Octets) -> Result<(), Memory>
    ensures { OnOk result (out.new ≡ out.old
        ++ field_encoding (codes "blobs") (Item.list no_items)) }
{
    write_text(out, "blobs")?;
    write_list_front(out, 0)
}

/// Adds the revision of the commit before, or null.
fn write_since(out: &mut Octets, past: &Option<Past>) -> Result<(), Memory>
    ensures { OnOk result (out.new ≡ out.old
        ++ field_encoding (codes "since") (since_item past.now)) }
{
    match past {
        Some(past) => write_tid_field(out, "since", past.rev),
        None => write_null_field(out, "since"),
    }
}

/// Adds the root of the commit before, where there is one.
fn write_prev_data(out: &mut Octets, past: &Option<Past>) -> Result<(), Memory>
    ensures { OnOk result (out.new ≡ out.old ++ fields_encoding (fields_of (prev_data past.now))) }
{
    match past {
        Some(past) => write_link_field(out, "prevData", &past.data_root),
        None => Ok(()),
    }
}

/// A commit, as its message states it: its number in the stream of its host, its revision, the commit before it, its
/// link, and the CAR that goes with it.
#[derive(Clone, Copy)]
pub(crate) struct Stated<'a> {
    pub did: &'a str,
    pub seq: u64,
    pub rev: Tid,
    pub past: Option<Past>,
    pub commit: Cid,
    pub changes: &'a [Change],
    pub blocks: &'a [u8],
}

/// Adds the fields up to the DID.
fn write_front(out: &mut Octets, stated: &Stated) -> Result<(), Memory>
    requires { stated.now.seq < 2 ^ 63 }
    ensures { OnOk result (out.new ≡ out.old
        ++ fields_encoding
        (fields_of (front_fields (map op_of stated.now.changes.now) stated.now.rev stated.now.seq
        stated.now.did.now))) }
{
    write_ops(out, stated.changes)?;
    write_tid_field(out, "rev", stated.rev)?;
    write_int_field(out, "seq", stated.seq)?;
    write_text_field(out, "repo", stated.did)
}

/// Adds the fields from the time to the blocks.
fn write_middle(out: &mut Octets, stated: &Stated) -> Result<(), Memory>
    ensures { OnOk result (out.new ≡ out.old
        ++ fields_encoding (fields_of (middle_fields stated.now.past stated.now.blocks.now))) }
{
    write_text_field(out, "time", TIME)?;
    write_blobs(out)?;
    write_since(out, &stated.past)?;
    write_bytes_field(out, "blocks", stated.blocks)
}

/// Adds the fields behind the blocks.
fn write_back(out: &mut Octets, stated: &Stated) -> Result<(), Memory>
    ensures { OnOk result (out.new ≡ out.old
        ++ fields_encoding (fields_of (back_fields stated.now.past stated.now.commit))) }
{
    write_link_field(out, "commit", &stated.commit)?;
    write_bool_field(out, "rebase", false)?;
    write_bool_field(out, "tooBig", false)?;
    write_prev_data(out, &stated.past)
}

/// Adds the front of the payload: how many fields follow.
fn write_count(out: &mut Octets, past: &Option<Past>) -> Result<(), Memory>
    ensures { OnOk result (out.new ≡ out.old
        ++ front_of Major.Map (11 + fields_count (fields_of (prev_data past.now)))) }
{
    match past {
        Some(_) => write_map_front(out, 12),
        None => write_map_front(out, 11),
    }
}

/// Adds the header of a commit.
fn write_header(out: &mut Octets) -> Result<(), Memory>
    ensures { OnOk result (out.new ≡ out.old ++ encoding (header_of EventKind.Commit)) }
{
    write_map_front(out, 2)?;
    write_text_field(out, "t", "#commit")?;
    write_int_field(out, "op", 1)
}

/// The message of a commit.
pub(crate) fn message(alloc: Global, stated: &Stated) -> Result<Octets, Memory>
    requires { stated.now.seq < 2 ^ 63 }
    ensures { IfOk result (λ message. message
        ≡ event_message EventKind.Commit
        (payload_of stated.now.did.now stated.now.seq stated.now.rev stated.now.past
        (map op_of stated.now.changes.now) stated.now.commit stated.now.blocks.now)) }
{
    let mut out = Octets::new(alloc);
    write_header(&mut out)?;
    write_count(&mut out, &stated.past)?;
    write_front(&mut out, stated)?;
    write_middle(&mut out, stated)?;
    write_back(&mut out, stated)?;
    Ok(out)
}
