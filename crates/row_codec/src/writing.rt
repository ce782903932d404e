//! The encoding of rows, added to bytes piece by piece.

ghost use Rattle.std.specs.Prelude.{◌≡◌, ◌++◌, ◌+◌, ◌<◌, ◌≤◌, ◌^◌, ◌∷◌, [], length, take, Some, None, IfOk, IfSome, OnOk, OnErr};
ghost use Rattle.at_cbor.specs.declared.major.Major.{Major};
ghost use Rattle.at_cbor.specs.Item.{Item, items_of};
ghost use Rattle.at_cbor.specs.Encoding.{front_of, encoding, items_encoding};
ghost use Rattle.at_event.specs.Writing.{out_of, number_item as number};
ghost use Rattle.row_codec.specs.Bodies.{row_encoding, encoded_rows, rows_body};
ghost use Rattle.relay_row.specs.NewRow.{HasNumber, message_of, with_message};
ghost use Rattle.row_codec.specs.Items.{rev_text, list, or_null, if_there, head_items, whole_items, code, detail_items, effect_item, fetched_item, repo_item, carried_items, row_items};
ghost use Rattle.at_cid.specs.declared.limits.TheConstants.{NUMBERS};
ghost use Rattle.relay_row.specs.declared.row.Row.{Row};

use crate::rows::Rows;
use at_cbor::{
    write_bool, write_bytes, write_link, write_list_front, write_null, write_number, write_text,
};
use at_cid::{Memory, Octets, Words};
use at_event::{Event, EventKind, Head, Refusal, frame_len, write_frame};
use at_syntax::{TID_LEN, Tid};
use relay_row::{
    Carried, CarriedAccount, CarriedRepo, Effect, Fetched, NewRow, Operated, Row, Taken, Whole,
};
use std::alloc::Global;

fn write_rev(out: &mut Octets, rev: Tid) -> Result<(), Memory>
    ensures written { OnOk result (out.new ≡ out.old ++ encoding (rev_text rev)) }
    ensures err { OnErr result (take (length out.old) out.new ≡ out.old) }
{
    let mut digits = [0; TID_LEN];
    write_text(out, rev.write_text(&mut digits))
}

fn write_head(out: &mut Octets, head: &Head) -> Result<(), Memory>
    ensures written { OnOk result
        (out.new ≡ out.old ++ items_encoding (items_of (head_items head.now))) }
    ensures err { OnErr result (take (length out.old) out.new ≡ out.old) }
{
    write_rev(out, head.rev)?;
    write_link(out, &head.data_root)?;
    write_link(out, &head.commit)
}

fn write_whole(out: &mut Octets, whole: &Whole) -> Result<(), Memory>
    ensures written { OnOk result (out.new ≡ out.old ++ encoding (list (whole_items whole.now))) }
    ensures err { OnErr result (take (length out.old) out.new ≡ out.old) }
{
    write_list_front(out, 6)?;
    write_number(out, whole.seq)?;
    write_head(out, &whole.head)?;
    write_number(out, whole.records)?;
    write_bytes(out, whole.message.as_slice())
}

fn write_code(out: &mut Octets, refusal: &Option<Refusal>) -> Result<(), Memory>
    ensures written { OnOk result (out.new ≡ out.old ++ encoding (number (code refusal.now))) }
    ensures err { OnErr result (take (length out.old) out.new ≡ out.old) }
{
    match refusal {
        Some(refusal) => write_number(out, u64::from(refusal.code())),
        None => write_number(out, 0),
    }
}

fn write_refusal(out: &mut Octets, refusal: &Refusal) -> Result<(), Memory>
    ensures written { OnOk result
        (out.new ≡ out.old ++ encoding (list (detail_items (Some refusal.now)))) }
    ensures err { OnErr result (take (length out.old) out.new ≡ out.old) }
{
    match refusal {
        Refusal::BadNode(link) => {
            write_list_front(out, 1)?;
            write_link(out, link)
        }
        Refusal::OtherOp(place) | Refusal::NotCovered(place) => {
            write_list_front(out, 1)?;
            write_number(out, u64::from(*place))
        }
        Refusal::OtherData(want, got) => {
            write_list_front(out, 2)?;
            write_link(out, want)?;
            write_link(out, got)
        }
        _ => write_list_front(out, 0),
    }
}

fn write_detail(out: &mut Octets, refusal: &Option<Refusal>) -> Result<(), Memory>
    ensures written { OnOk result
        (out.new ≡ out.old ++ encoding (list (detail_items refusal.now))) }
    ensures err { OnErr result (take (length out.old) out.new ≡ out.old) }
{
    match refusal {
        Some(refusal) => write_refusal(out, refusal),
        None => write_list_front(out, 0),
    }
}

fn write_status(out: &mut Octets, status: &Option<Words>) -> Result<(), Memory>
    ensures written { OnOk result (out.new ≡ out.old ++ encoding (or_null Item.text status.now)) }
    ensures err { OnErr result (take (length out.old) out.new ≡ out.old) }
{
    match status {
        Some(status) => write_text(out, status.as_str()),
        None => write_null(out),
    }
}

fn write_effect(out: &mut Octets, effect: &Effect) -> Result<(), Memory>
    ensures written { OnOk result (out.new ≡ out.old ++ encoding (effect_item effect.now)) }
    ensures err { OnErr result (take (length out.old) out.new ≡ out.old) }
{
    match effect {
        Effect::Nothing => write_null(out),
        Effect::Repo(head) => {
            write_list_front(out, 3)?;
            write_head(out, head)
        }
        Effect::Account(active, status) => {
            write_list_front(out, 2)?;
            write_bool(out, *active)?;
            write_status(out, status)
        }
    }
}

fn write_fetched(out: &mut Octets, fetched: &Fetched) -> Result<(), Memory>
    ensures written { OnOk result (out.new ≡ out.old ++ encoding (fetched_item fetched.now)) }
    ensures err { OnErr result (take (length out.old) out.new ≡ out.old) }
{
    match fetched {
        Fetched::NotAsked => write_null(out),
        Fetched::Absent => write_number(out, 0),
        Fetched::Refused(number) => write_number(out, u64::from(*number)),
        Fetched::Whole(whole) => write_whole(out, whole),
    }
}

fn write_null_or_rev(out: &mut Octets, rev: Option<Tid>) -> Result<(), Memory>
    ensures written { OnOk result (out.new ≡ out.old ++ encoding (or_null rev_text rev)) }
    ensures err { OnErr result (take (length out.old) out.new ≡ out.old) }
{
    match rev {
        Some(rev) => write_rev(out, rev),
        None => write_null(out),
    }
}

fn write_repo(out: &mut Octets, repo: &CarriedRepo) -> Result<(), Memory>
    ensures written { OnOk result (out.new ≡ out.old ++ encoding (repo_item repo.now)) }
    ensures err { OnErr result (take (length out.old) out.new ≡ out.old) }
{
    match repo {
        CarriedRepo::Missing => write_null(out),
        CarriedRepo::Good(head) => {
            write_list_front(out, 3)?;
            write_head(out, head)
        }
        CarriedRepo::Lost(rev) => {
            write_list_front(out, 1)?;
            write_null_or_rev(out, *rev)
        }
    }
}

fn write_moment(out: &mut Octets, moment: Option<u64>) -> Result<(), Memory>
    ensures written { OnOk result
        (out.new ≡ out.old ++ items_encoding (items_of (if_there number moment))) }
    ensures err { OnErr result (take (length out.old) out.new ≡ out.old) }
{
    match moment {
        Some(moment) => write_number(out, moment),
        None => Ok(()),
    }
}

// The front of a list of so many items, and one more where there is a moment.
fn write_front(out: &mut Octets, others: usize, moment: Option<u64>) -> Result<(), Memory>
    requires { others < 24 }
    ensures written { OnOk result
        (out.new ≡ out.old ++ front_of Major.List (others + length (if_there number moment))) }
    ensures err { OnErr result (take (length out.old) out.new ≡ out.old) }
{
    match moment {
        Some(_) => write_list_front(out, others + 1),
        None => write_list_front(out, others),
    }
}

// Whose message it is.
fn write_source(out: &mut Octets, taken: &Taken) -> Result<(), Memory>
    ensures written { OnOk result
        (out.new ≡ out.old ++ items_encoding (items_of (number 1 ∷ Item.text taken.now.host
        ∷ number taken.now.host_seq ∷ Item.text taken.now.did ∷ number taken.now.kind ∷ []))) }
    ensures err { OnErr result (take (length out.old) out.new ≡ out.old) }
{
    write_number(out, 1)?;
    write_text(out, taken.host.as_str())?;
    write_number(out, taken.host_seq)?;
    write_text(out, taken.did.as_str())?;
    write_number(out, u64::from(taken.kind))
}

// The front of so many bytes: that of a number, but for the major type.
fn write_bytes_front(out: &mut Octets, len: u64) -> Result<(), Memory>
    ensures written { OnOk result (out.new ≡ out.old ++ front_of Major.Bytes len) }
    ensures err { OnErr result (take (length out.old) out.new ≡ out.old) }
{
    let place = out.len();
    write_number(out, len)?;
    let first = out.as_slice()[place];
    out.overwrite(place, &[64 + first]);
    Ok(())
}

// The message of an event under a number, whose length is found first.
fn write_measured_event(out: &mut Octets, event: &Event, seq: u64) -> Result<(), Memory>
    requires { seq < NUMBERS }
    ensures written { OnOk result
        (out.new ≡ out.old ++ encoding (Item.bytes (out_of event.now seq))) }
    ensures err { OnErr result (take (length out.old) out.new ≡ out.old) }
{
    let len = frame_len(event, seq);
    if len == u64::MAX {
        return Err(Memory);
    }
    write_bytes_front(out, len)?;
    write_frame(out, event, seq)
}

// The message of an event under a number, whose length is most likely one for which its front has a single byte: it is put there
// once the message stands behind it.
fn write_short_event(out: &mut Octets, event: &Event, seq: u64) -> Result<(), Memory>
    requires { seq < NUMBERS }
    ensures written { OnOk result
        (out.new ≡ out.old ++ encoding (Item.bytes (out_of event.now seq))) }
    ensures err { OnErr result (take (length out.old) out.new ≡ out.old) }
{
    let place = out.len();
    out.extend(&[0x58, 0])?;
    write_frame(out, event, seq)?;
    let len = out.len() - place - 2;
    if len < 24 || len > 255 {
        out.truncate(place);
        return write_measured_event(out, event, seq);
    }
    out.overwrite(place + 1, &[len as u8]);
    Ok(())
}

// The message of an event under a number. An event with blocks has a long one.
fn write_event(out: &mut Octets, event: &Event, seq: u64) -> Result<(), Memory>
    requires { seq < NUMBERS }
    ensures written { OnOk result
        (out.new ≡ out.old ++ encoding (Item.bytes (out_of event.now seq))) }
    ensures err { OnErr result (take (length out.old) out.new ≡ out.old) }
{
    match event.kind() {
        EventKind::Commit | EventKind::Sync => write_measured_event(out, event, seq),
        EventKind::Identity | EventKind::Account => write_short_event(out, event, seq),
    }
}

// The message of a row, or of the event of which it isn't encoded yet.
fn write_message(out: &mut Octets, taken: &Taken, event: &Option<Event>) -> Result<(), Memory>
    requires { HasNumber taken.now event.now }
    ensures written { OnOk result
        (out.new ≡ out.old ++ encoding (Item.bytes (message_of taken.now event.now))) }
    ensures err { OnErr result (take (length out.old) out.new ≡ out.old) }
{
    match event {
        Some(event) => write_event(out, event, taken.seq),
        None => write_bytes(out, taken.message.as_slice()),
    }
}

// What was decided, and what goes out.
fn write_decision(out: &mut Octets, taken: &Taken, event: &Option<Event>) -> Result<(), Memory>
    requires { HasNumber taken.now event.now }
    ensures written { OnOk result (out.new ≡ out.old ++ items_encoding
        (items_of (number (code taken.now.refusal) ∷ list (detail_items taken.now.refusal)
        ∷ number taken.now.seq ∷ Item.bytes (message_of taken.now event.now) ∷ []))) }
    ensures err { OnErr result (take (length out.old) out.new ≡ out.old) }
{
    write_code(out, &taken.refusal)?;
    write_detail(out, &taken.refusal)?;
    write_number(out, taken.seq)?;
    write_message(out, taken, event)
}

// What follows from it, and when it was.
fn write_outcome(out: &mut Octets, taken: &Taken) -> Result<(), Memory>
    ensures written { OnOk result (out.new ≡ out.old ++ items_encoding (items_of (effect_item
        taken.now.effect ∷ fetched_item taken.now.fetched ∷ if_there number taken.now.moment))) }
    ensures err { OnErr result (take (length out.old) out.new ≡ out.old) }
{
    write_effect(out, &taken.effect)?;
    write_fetched(out, &taken.fetched)?;
    write_moment(out, taken.moment)
}

fn write_taken(out: &mut Octets, taken: &Taken, event: &Option<Event>) -> Result<(), Memory>
    requires { HasNumber taken.now event.now }
    ensures written { OnOk result (out.new ≡ out.old
        ++ encoding (list (row_items (Row.Taken (with_message taken.now event.now))))) }
    ensures err { OnErr result (take (length out.old) out.new ≡ out.old) }
{
    write_front(out, 11, taken.moment)?;
    write_source(out, taken)?;
    write_decision(out, taken, event)?;
    write_outcome(out, taken)
}

fn write_synced(
    out: &mut Octets,
    did: &Words,
    whole: &Whole,
    moment: Option<u64>,
) -> Result<(), Memory>
    ensures written { OnOk result
        (out.new ≡ out.old ++ encoding (list (row_items (Row.Synced did.now whole.now moment)))) }
    ensures err { OnErr result (take (length out.old) out.new ≡ out.old) }
{
    write_front(out, 3, moment)?;
    write_number(out, 2)?;
    write_text(out, did.as_str())?;
    write_whole(out, whole)?;
    write_moment(out, moment)
}

// Whom an operator spoke of, and what he said.
fn write_said(out: &mut Octets, operated: &Operated) -> Result<(), Memory>
    ensures written { OnOk result (out.new ≡ out.old ++ items_encoding
        (items_of (number 3 ∷ Item.text operated.now.did ∷ Item.bool operated.now.down ∷ []))) }
    ensures err { OnErr result (take (length out.old) out.new ≡ out.old) }
{
    write_number(out, 3)?;
    write_text(out, operated.did.as_str())?;
    write_bool(out, operated.down)
}

fn write_operated(out: &mut Octets, operated: &Operated) -> Result<(), Memory>
    ensures written { OnOk result
        (out.new ≡ out.old ++ encoding (list (row_items (Row.Operated operated.now)))) }
    ensures err { OnErr result (take (length out.old) out.new ≡ out.old) }
{
    write_front(out, 5, operated.moment)?;
    write_said(out, operated)?;
    write_number(out, operated.seq)?;
    write_bytes(out, operated.message.as_slice())?;
    write_moment(out, operated.moment)
}

fn write_account(out: &mut Octets, account: &CarriedAccount) -> Result<(), Memory>
    ensures written { OnOk result (out.new ≡ out.old ++ items_encoding
        (items_of (Item.text account.now.did ∷ Item.bool account.now.active ∷ or_null Item.text
        account.now.status ∷ Item.bool account.now.down ∷ repo_item account.now.repo ∷ []))) }
    ensures err { OnErr result (take (length out.old) out.new ≡ out.old) }
{
    write_text(out, account.did.as_str())?;
    write_bool(out, account.active)?;
    write_status(out, &account.status)?;
    write_bool(out, account.down)?;
    write_repo(out, &account.repo)
}

fn write_carried_front(out: &mut Octets, count: usize, which: u64) -> Result<(), Memory>
    ensures written { OnOk result (out.new ≡ out.old
        ++ (front_of Major.List count ++ (encoding (number 4) ++ encoding (number which)))) }
    ensures err { OnErr result (take (length out.old) out.new ≡ out.old) }
{
    write_list_front(out, count)?;
    write_number(out, 4)?;
    write_number(out, which)
}

fn write_carried(out: &mut Octets, carried: &Carried) -> Result<(), Memory>
    ensures written { OnOk result
        (out.new ≡ out.old ++ encoding (list (carried_items carried.now))) }
    ensures err { OnErr result (take (length out.old) out.new ≡ out.old) }
{
    match carried {
        Carried::Last(seq) => {
            write_carried_front(out, 3, 0)?;
            write_number(out, *seq)
        }
        Carried::Host(host, cursor) => {
            write_carried_front(out, 4, 1)?;
            write_text(out, host.as_str())?;
            write_number(out, *cursor)
        }
        Carried::Account(account) => {
            write_carried_front(out, 7, 2)?;
            write_account(out, account)
        }
    }
}

/// Adds the one encoding of a row. Where memory runs out, what was there stays in front.
#[tactic(auto, unfolding(crate::specs::Bodies::row_encoding))]
pub fn write_row(out: &mut Octets, row: &Row) -> Result<(), Memory>
    ensures written { OnOk result (out.new ≡ out.old ++ row_encoding row.now) }
    ensures err { OnErr result (take (length out.old) out.new ≡ out.old) }
{
    match row {
        Row::Taken(taken) => write_taken(out, taken, &None),
        Row::Synced(did, whole, moment) => write_synced(out, did, whole, *moment),
        Row::Operated(operated) => write_operated(out, operated),
        Row::Carried(carried) => write_carried(out, carried),
    }
}

/// Adds the one encoding of a row whose message isn't encoded yet: it is encoded here alone. Where memory runs out, what was there
/// stays in front.
#[tactic(auto, unfolding(crate::specs::Bodies::row_encoding))]
pub fn write_new_row(out: &mut Octets, new_row: &NewRow) -> Result<(), Memory>
    ensures written { OnOk result (out.new ≡ out.old ++ row_encoding (Row.Taken new_row.now)) }
    ensures err { OnErr result (take (length out.old) out.new ≡ out.old) }
{
    let (taken, event) = new_row.to_encode();
    write_taken(out, taken, event)
}

/// Adds rows, one behind the other, without the front of a list.
pub fn write_encoded(out: &mut Octets, rows: &[Row]) -> Result<(), Memory>
    ensures { OnOk result (out.new ≡ out.old ++ encoded_rows rows.now) }
{
    let mut rest = rows;
    'rows: loop {
        let [row, others @ ..] = rest else {
            return Ok(());
        };
        write_row(out, row)?;
        rest = others;
    }
}

/// The body of rows.
#[tactic(auto, unfolding(crate::specs::Bodies::rows_body))]
pub fn write_rows(alloc: Global, rows: &Rows) -> Result<Octets, Memory>
    ensures { IfOk result (λ body. body ≡ rows_body rows.now) }
{
    let mut out = Octets::new(alloc);
    write_list_front(&mut out, rows.len())?;
    write_encoded(&mut out, rows.as_slice())?;
    Ok(out)
}
