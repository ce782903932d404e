//! The frames in which events go out.

ghost use Rattle.std.specs.Prelude.{◌≡◌, ◌++◌, ◌-◌, ◌^◌, ◌<◌, ◌≤◌, ℕ, map, length, take, codes, min, OnOk, OnErr, IfOk, Ok};
ghost use Rattle.at_cbor.specs.Item.{field, no_fields, fields_of};
ghost use Rattle.at_cbor.specs.Encoding.{encoding, fields_encoding};
ghost use Rattle.at_cbor.specs.View.{item_of, pair_of};
ghost use Rattle.at_cid.specs.declared.limits.TheConstants.{NUMBERS};
ghost use Rattle.at_event.specs.declared.frame.Frame.{Frame};
ghost use Rattle.at_event.specs.Frames.{frame_of};
ghost use Rattle.at_event.specs.Writing.{kind_name, header_of, number_item, with_field_value, with_seq, blocks_of, fields_with_blocks, with_blocks, numbered, out_of, out_length};

use crate::event::{Body, Event};
use crate::header::header;
use crate::kind::EventKind;
use at_cbor::{
    Value, encoded_len, front_len, string_len, write_bytes, write_int, write_map_front, write_text,
    write_value,
};
use at_cid::{Memory, NUMBERS, Octets, Words};
use std::alloc::Global;

fn name(kind: EventKind) -> &'static str
    ensures { result.now ≡ kind_name kind }
{
    match kind {
        EventKind::Commit => "#commit",
        EventKind::Sync => "#sync",
        EventKind::Identity => "#identity",
        EventKind::Account => "#account",
    }
}

/// Adds the header of an event.
pub fn write_header(out: &mut Octets, kind: EventKind) -> Result<(), Memory>
    ensures written { OnOk result (out.new ≡ out.old ++ encoding (header_of kind)) }
    ensures err { OnErr result (take (length out.old) out.new ≡ out.old) }
{
    out.extend(header(kind))
}

/// Adds an event's number.
pub fn write_number(out: &mut Octets, seq: u64) -> Result<(), Memory>
    requires { seq < NUMBERS }
    ensures written { OnOk result (out.new ≡ out.old ++ encoding (number_item seq)) }
    ensures err { OnErr result (take (length out.old) out.new ≡ out.old) }
{
    write_int(out, seq as i64)
}

fn write_field(
    out: &mut Octets,
    key: &Words,
    value: &Value,
    body: &Body,
    seq: u64,
) -> Result<(), Memory>
    requires { seq < NUMBERS }
    ensures written { OnOk result
        (out.new ≡ out.old ++ fields_encoding (with_field_value (codes "seq") (number_item seq)
        (fields_with_blocks (blocks_of body.now) (field key.now (item_of value.now) no_fields)))) }
    ensures err { OnErr result (take (length out.old) out.new ≡ out.old) }
{
    write_text(out, key.as_str())?;
    let name = key.as_bytes();
    if name == "seq".as_bytes() {
        return write_number(out, seq);
    }
    match body.blocks() {
        Some(blocks) if name == "blocks".as_bytes() => write_bytes(out, blocks.as_slice()),
        _ => write_value(out, value),
    }
}

fn write_fields(
    out: &mut Octets,
    fields: &[(Words, Value)],
    body: &Body,
    seq: u64,
) -> Result<(), Memory>
    requires { seq < NUMBERS }
    ensures written { OnOk result
        (out.new ≡ out.old ++ fields_encoding (with_field_value (codes "seq") (number_item seq)
        (fields_with_blocks (blocks_of body.now) (fields_of (map pair_of fields.now))))) }
    ensures err { OnErr result (take (length out.old) out.new ≡ out.old) }
{
    for (key, value) in fields {
        write_field(out, key, value, body, seq)?;
    }
    Ok(())
}

fn write_payload(out: &mut Octets, rest: &Value, body: &Body, seq: u64) -> Result<(), Memory>
    requires { seq < NUMBERS }
    ensures written { OnOk result (out.new ≡ out.old
        ++ encoding (with_seq seq (with_blocks (blocks_of body.now) (item_of rest.now)))) }
    ensures err { OnErr result (take (length out.old) out.new ≡ out.old) }
{
    match rest {
        Value::Map(fields) => {
            write_map_front(out, fields.len())?;
            write_fields(out, fields.as_slice(), body, seq)
        }
        // No event has such a payload.
        other => write_value(out, other),
    }
}

/// Adds the frame in which an event goes out under a number: its payload with `seq` replaced, behind the header `{t, op}`. Where
/// memory runs out, what was there stays in front.
#[tactic(auto, unfolding(crate::specs::Writing::out_of, crate::specs::Writing::event_message))]
pub fn write_frame(out: &mut Octets, event: &Event, seq: u64) -> Result<(), Memory>
    requires { seq < NUMBERS }
    ensures written { OnOk result (out.new ≡ out.old ++ out_of event.now seq) }
    ensures err { OnErr result (take (length out.old) out.new ≡ out.old) }
{
    write_header(out, event.kind())?;
    write_payload(out, &event.rest, &event.body, seq)
}

/// The frame in which an event goes out under a number, with its own memory.
pub fn out_frame(alloc: Global, event: &Event, seq: u64) -> Result<Octets, Memory>
    requires { seq < NUMBERS }
    ensures encoded { IfOk result (λ bytes. bytes ≡ out_of event.now seq) }
    // It is read back as the same event, under the number.
    ensures again { IfOk result
        (λ bytes. frame_of bytes ≡ Ok (Frame.Event (numbered event.now seq))) }
{
    event.ghost_event();
    let mut out = Octets::new(alloc);
    write_frame(&mut out, event, seq)?;
    Ok(out)
}

fn number_len(seq: u64) -> u64
    requires { seq < NUMBERS }
    ensures { result ≡ min (length (encoding (number_item seq))) (2 ^ 64 - 1) }
{
    encoded_len(&Value::Int(seq as i64))
}

fn field_len(key: &Words, value: &Value, body: &Body) -> u64
    ensures { result ≡ min (length (fields_encoding
        (fields_with_blocks (blocks_of body.now) (field key.now (item_of value.now) no_fields))))
        (2 ^ 64 - 1) }
{
    let value = match body.blocks() {
        Some(blocks) if key.as_bytes() == "blocks".as_bytes() => string_len(blocks.len()),
        _ => encoded_len(value),
    };
    string_len(key.len()).saturating_add(value)
}

fn fields_len(fields: &[(Words, Value)], body: &Body) -> u64
    ensures { result ≡ min (length (fields_encoding
        (fields_with_blocks (blocks_of body.now) (fields_of (map pair_of fields.now)))))
        (2 ^ 64 - 1) }
{
    let mut sum: u64 = 0;
    for (key, value) in fields {
        sum = sum.saturating_add(field_len(key, value, body));
    }
    sum
}

fn payload_len(rest: &Value, body: &Body) -> u64
    ensures { result ≡ min (length (encoding (with_blocks (blocks_of body.now) (item_of rest.now))))
        (2 ^ 64 - 1) }
{
    match rest {
        Value::Map(fields) => {
            let front = front_len(fields.len() as u64);
            front.saturating_add(fields_len(fields.as_slice(), body))
        }
        // No event has such a payload.
        other => encoded_len(other),
    }
}

/// How long the frame of an event is under a number; at most `u64::MAX`. Takes no memory.
pub fn frame_len(event: &Event, seq: u64) -> u64
    requires { seq < NUMBERS }
    ensures { result ≡ min (length (out_of event.now seq)) (2 ^ 64 - 1) }
{
    let header = name(event.kind()).len() as u64 + 8;
    let number = number_len(event.seq);
    let payload = payload_len(&event.rest, &event.body);
    (payload - number).saturating_add(number_len(seq) + header)
}

/// How long the frame of an event is where its number takes nine bytes, as each from 2^32 does; at most `u64::MAX`.
/// Takes no memory.
pub fn out_len(event: &Event) -> u64
    ensures value { result ≡ out_length event.now }
    ensures nine { (n : ℕ) → 2 ^ 32 ≤ n → n < NUMBERS
        → result ≡ min (length (out_of event.now n)) (2 ^ 64 - 1) }
    // No frame of the event is longer.
    ensures most { (n : ℕ) → n < NUMBERS → min (length (out_of event.now n)) (2 ^ 64 - 1) ≤ result }
{
    event.ghost_event();
    frame_len(event, NUMBERS - 1)
}
