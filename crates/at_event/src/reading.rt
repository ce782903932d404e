//! The frame that a message is.

ghost use Rattle.std.specs.Prelude.{◌≡◌, option_map, IfOk, IfSome, Some};
ghost use Rattle.at_cbor.specs.Item.{Item};
ghost use Rattle.at_cbor.specs.declared.decoding.TheConstants.{DEPTH};
ghost use Rattle.at_cbor.specs.Encoding.{Fits};
ghost use Rattle.at_cbor.specs.Taking.{whole_item};
ghost use Rattle.at_cbor.specs.View.{item_of};
ghost use Rattle.at_event.specs.Flaws.{Reads};
ghost use Rattle.at_event.specs.Formed.{IsFormedFrame};
ghost use Rattle.at_event.specs.Frames.{items_in, heading_named, heading_of, event_frame, announced, framed, frame_of, payload_frame, IsMessage, IsFrameOf, ReadsAs};
ghost use Rattle.at_event.specs.Table.{event_of, seq_of};

use crate::event::Event;
use crate::flaw::Flaw;
use crate::forms::{required_did, required_short_text};
use crate::frame::{Frame, FrameFault};
use crate::header::take_header;
use crate::kind::{EventKind, Heading};
use crate::table::{did_key, read_body};
use at_cbor::{Value, decode_whole, field, take_item};
use at_cid::Memory;
use at_form::number;
use std::alloc::Global;

/// The header and the payload that the message is.
#[tactic(auto, unfolding(crate::specs::Frames::items_in))]
fn read_items(alloc: Global, message: &[u8]) -> Result<Option<(Value, Value)>, Memory>
    ensures items { IfOk result
        (λ found. option_map (λ x. (item_of x.0, item_of x.1)) found ≡ items_in message.now) }
    ensures fits { IfOk result (λ found. IfSome found (λ x. Fits (item_of x.1) DEPTH)) }
{
    let Some((header, rest)) = take_item(alloc, message)? else {
        return Ok(None);
    };
    match decode_whole(alloc, rest)? {
        Some(payload) => Ok(Some((header, payload))),
        None => Ok(None),
    }
}

#[tactic(auto, unfolding(crate::specs::Frames::heading_named))]
fn named(text: &str) -> Heading
    ensures { result ≡ heading_named text.now }
{
    match text {
        "#commit" => Heading::Event(EventKind::Commit),
        "#sync" => Heading::Event(EventKind::Sync),
        "#identity" => Heading::Event(EventKind::Identity),
        "#account" => Heading::Event(EventKind::Account),
        "#info" => Heading::Info,
        _ => Heading::Unknown,
    }
}

#[tactic(auto, unfolding(crate::specs::Frames::heading_of))]
fn heading(header: &Value) -> Option<Heading>
    ensures { result ≡ heading_of (item_of header.now) }
{
    match field(header, "op")?.as_int()? {
        1 => Some(named(field(header, "t")?.as_text()?.as_str())),
        -1 => Some(Heading::Error),
        _ => Some(Heading::Unknown),
    }
}

#[tactic(auto, unfolding(crate::specs::Table::seq_of))]
fn seq(payload: &Value) -> Option<u64>
    ensures { result ≡ seq_of (item_of payload.now) }
{
    number(field(payload, "seq")?)
}

#[tactic(auto, unfolding(crate::specs::Table::event_of))]
fn read_event(alloc: Global, kind: EventKind, seq: u64, mut payload: Value) -> Result<Event, Flaw>
    requires fits { Fits (item_of payload) DEPTH }
    requires number { seq_of (item_of payload) ≡ Some seq }
    ensures { Reads (λ event. event) result (event_of kind seq (item_of payload)) }
{
    let did = required_did(&payload, did_key(kind))?;
    let time = required_short_text(&payload, "time")?;
    let body = read_body(alloc, kind, &mut payload)?;
    Ok(Event {
        seq,
        did,
        time,
        body,
        rest: payload,
    })
}

#[tactic(auto, unfolding(crate::specs::Frames::event_frame))]
fn read_numbered(alloc: Global, kind: EventKind, payload: Value) -> Result<Frame, FrameFault>
    requires { Fits (item_of payload) DEPTH }
    ensures { ReadsAs result (event_frame kind (item_of payload)) }
{
    let Some(seq) = seq(&payload) else {
        return Err(FrameFault::NoSeq);
    };
    match read_event(alloc, kind, seq, payload) {
        Ok(event) => Ok(Frame::Event(event)),
        Err(Flaw::BadField) => Ok(Frame::Faulty(seq)),
        Err(Flaw::Memory) => Err(FrameFault::Memory),
    }
}

#[tactic(auto, unfolding(crate::specs::Frames::announced))]
fn read_announced(alloc: Global, heading: Heading, payload: Value) -> Result<Frame, FrameFault>
    requires { Fits (item_of payload) DEPTH }
    ensures { ReadsAs result (announced heading (item_of payload)) }
{
    match heading {
        Heading::Event(kind) => read_numbered(alloc, kind, payload),
        Heading::Info => Ok(Frame::Info),
        Heading::Error => Ok(Frame::Error),
        Heading::Unknown => Ok(Frame::Unknown),
    }
}

/// The frame of a message with the header of an event, and these bytes behind it.
#[tactic(auto, unfolding(crate::specs::Frames::announced))]
fn read_payload(alloc: Global, kind: EventKind, bytes: &[u8]) -> Result<Frame, FrameFault>
    ensures { ReadsAs result (payload_frame kind (whole_item bytes.now)) }
{
    let Some(payload) = decode_whole(alloc, bytes)? else {
        return Err(FrameFault::BadFrame);
    };
    if payload.as_map().is_none() {
        return Err(FrameFault::BadFrame);
    }
    read_numbered(alloc, kind, payload)
}

#[tactic(auto, unfolding(crate::specs::Frames::frame_of))]
fn read_message(alloc: Global, message: &[u8]) -> Result<Frame, FrameFault>
    ensures { ReadsAs result (frame_of message.now) }
{
    if let Some((kind, payload)) = take_header(message) {
        return read_payload(alloc, kind, payload);
    }
    let Some((header, payload)) = read_items(alloc, message)? else {
        return Err(FrameFault::BadFrame);
    };
    let Some(heading) = heading(&header) else {
        return Err(FrameFault::BadFrame);
    };
    if payload.as_map().is_none() {
        return Err(FrameFault::BadFrame);
    }
    read_announced(alloc, heading, payload)
}

/// The frame that a message is (Event Stream specification; Lexicon `com.atproto.sync.subscribeRepos`).
///
/// `BadFrame`: the message isn't a header and a payload, both maps, with nothing behind them; or the
/// header's `op` is no integer, or is 1 where `t` is no text. `NoSeq`: an event's `seq` isn't an integer
/// from 0 to 2^53 - 1. An event with another field that is missing or of another form is `Faulty`.
pub fn read_frame(alloc: Global, message: &[u8]) -> Result<Frame, FrameFault>
    // The message is encoded so, and a message that is encoded so is read.
    ensures whole { IfOk result (IsFrameOf message.now) }
    ensures only { (header payload : Item) → IsMessage message.now header payload
        → ReadsAs result (framed (Some (header, payload))) }
    // The fields of an event have their forms.
    ensures formed { IfOk result IsFormedFrame }
    ensures exact { ReadsAs result (frame_of message.now) }
{
    read_message(alloc, message)
}
