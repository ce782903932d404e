//! The relay's own events.

ghost use Rattle.std.specs.Prelude.{◌≡◌, ◌++◌, ◌<◌, ◌≤◌, length, option_map, OnOk, IfOk, IfSome, Ok, IsTrue};
ghost use Rattle.at_cbor.specs.Encoding.{encoding};
ghost use Rattle.at_syntax.specs.Did.{is_did};
ghost use Rattle.at_cid.specs.declared.limits.TheConstants.{NUMBERS};
ghost use Rattle.at_form.specs.declared.forms.TheConstants.{LONGEST_SHORT_TEXT};
ghost use Rattle.at_event.specs.declared.frame.Frame.{Frame};
ghost use Rattle.at_event.specs.declared.kind.EventKind.{EventKind};
ghost use Rattle.at_event.specs.Frames.{frame_of};
ghost use Rattle.at_event.specs.Writing.{event_message, sync_payload, sync_seen, account_payload, account_seen};

use crate::kind::EventKind;
use crate::map_fields::{
    write_bool_field, write_bytes_field, write_number_field, write_text_field, write_tid_field,
};
use crate::writing::write_header;
use at_cbor::write_map_front;
use at_cid::{Memory, Octets, ghost_bytes, ghost_text, ghost_text_or_none};
use at_syntax::Tid;
use std::alloc::Global;

#[tactic(auto, unfolding(crate::specs::Writing::sync_payload))]
fn write_sync(
    out: &mut Octets,
    did: &str,
    rev: Tid,
    blocks: &[u8],
    time: &str,
    seq: u64,
) -> Result<(), Memory>
    requires { seq < NUMBERS }
    ensures { OnOk result
        (out.new ≡ out.old ++ encoding (sync_payload did.now rev blocks.now time.now seq)) }
{
    write_map_front(out, 5)?;
    write_text_field(out, "did", did)?;
    write_tid_field(out, "rev", rev)?;
    write_number_field(out, "seq", seq)?;
    write_text_field(out, "time", time)?;
    write_bytes_field(out, "blocks", blocks)?;
    Ok(())
}

#[tactic(auto, unfolding(crate::specs::Writing::account_payload))]
fn write_account(
    out: &mut Octets,
    did: &str,
    active: bool,
    status: Option<&str>,
    time: &str,
    seq: u64,
) -> Result<(), Memory>
    requires { seq < NUMBERS }
    ensures { OnOk result (out.new ≡ out.old ++ encoding (account_payload did.now active
        (option_map (λ text. text.now) status.entry) time.now seq)) }
{
    write_map_front(out, if status.is_some() { 5 } else { 4 })?;
    write_text_field(out, "did", did)?;
    write_number_field(out, "seq", seq)?;
    write_text_field(out, "time", time)?;
    write_bool_field(out, "active", active)?;
    if let Some(status) = status {
        write_text_field(out, "status", status)?;
    }
    Ok(())
}

/// The frame of a `#sync` of the relay's own: the account's repository is at this revision, and `blocks` is a CAR with
/// its commit object.
#[tactic(auto, unfolding(crate::specs::Writing::event_message))]
pub fn sync_frame(
    alloc: Global,
    did: &str,
    rev: Tid,
    blocks: &[u8],
    time: &str,
    seq: u64,
) -> Result<Octets, Memory>
    requires { seq < NUMBERS }
    ensures encoded { IfOk result (λ bytes. bytes ≡ event_message EventKind.Sync
        (sync_payload did.now rev blocks.now time.now seq)) }
    // It is read back as that event, where the DID is one and the time has at most 64 bytes.
    ensures again { IfOk result
        (λ bytes. IsTrue (is_did did.now) → length time.now ≤ LONGEST_SHORT_TEXT
        → frame_of bytes ≡ Ok (Frame.Event (sync_seen did.now rev blocks.now time.now seq))) }
{
    ghost_text(did);
    rev.ghost_value();
    ghost_bytes(blocks);
    ghost_text(time);
    let mut out = Octets::new(alloc);
    write_header(&mut out, EventKind::Sync)?;
    write_sync(&mut out, did, rev, blocks, time, seq)?;
    Ok(out)
}

/// The frame of an `#account` of the relay's own: whether the account is active, and why not.
#[tactic(auto, unfolding(crate::specs::Writing::event_message))]
pub fn account_frame(
    alloc: Global,
    did: &str,
    active: bool,
    status: Option<&str>,
    time: &str,
    seq: u64,
) -> Result<Octets, Memory>
    requires { seq < NUMBERS }
    ensures encoded { IfOk result (λ bytes. bytes ≡ event_message EventKind.Account (account_payload
        did.now active (option_map (λ text. text.now) status.entry) time.now seq)) }
    // It is read back as that event, where the DID is one and the status and the time have at most 64 bytes.
    ensures again { IfOk result (λ bytes. IsTrue (is_did did.now)
        → IfSome status.entry (λ text. length text.now ≤ LONGEST_SHORT_TEXT)
        → length time.now ≤ LONGEST_SHORT_TEXT → frame_of bytes ≡ Ok (Frame.Event
        (account_seen did.now active (option_map (λ text. text.now) status.entry) time.now seq))) }
{
    ghost_text(did);
    ghost_text(time);
    ghost_text_or_none(status);
    let mut out = Octets::new(alloc);
    write_header(&mut out, EventKind::Account)?;
    write_account(&mut out, did, active, status, time, seq)?;
    Ok(out)
}
