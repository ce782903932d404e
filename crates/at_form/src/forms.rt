//! Values, each in its form.

ghost use Rattle.std.specs.Prelude.{◌≡◌, ◌<◌, ◌≤◌, length, option_map, true, IfSome, IsTrue};
ghost use Rattle.std.specs.Str.{is_utf8};
ghost use Rattle.at_cid.specs.Link.{IsBytes, IsNodeLink};
ghost use Rattle.at_cbor.specs.View.{item_of};
ghost use Rattle.at_syntax.specs.Did.{is_did};
ghost use Rattle.at_form.specs.Forms.{did_in, tid_in, short_text_in, node_in, number_in};

use at_cbor::Value;
use at_cid::{Cid, Kind, NUMBERS, Words};
use at_syntax::{Tid, did_ok};

/// How many bytes a short text has at most, as the time and the status of an event (own limit).
pub const LONGEST_SHORT_TEXT: usize = 64;

/// A text that is a DID.
#[tactic(auto, unfolding(crate::specs::Forms::did_in))]
pub fn did(value: &Value) -> Option<&Words>
    ensures value { option_map (λ text. text.now) result ≡ did_in (item_of value.now) }
    ensures did { IfSome result (λ text. IsTrue (is_did text.now)) }
    ensures utf8 { IfSome result (λ text. is_utf8 text.now ≡ true) }
    ensures bytes { IfSome result (λ text. IsBytes text.now) }
{
    match value.as_text() {
        Some(text) if did_ok(text.as_str()) => Some(text),
        _ => None,
    }
}

/// A text that is a TID.
#[tactic(auto, unfolding(crate::specs::Forms::tid_in))]
pub fn tid(value: &Value) -> Option<Tid>
    ensures { result ≡ tid_in (item_of value.now) }
{
    Tid::parse(value.as_text()?.as_str())
}

/// A text of at most 64 bytes.
#[tactic(auto, unfolding(crate::specs::Forms::short_text_in))]
pub fn short_text(value: &Value) -> Option<&Words>
    ensures value { option_map (λ text. text.now) result ≡ short_text_in (item_of value.now) }
    ensures short { IfSome result (λ text. length text.now ≤ LONGEST_SHORT_TEXT) }
    ensures utf8 { IfSome result (λ text. is_utf8 text.now ≡ true) }
    ensures bytes { IfSome result (λ text. IsBytes text.now) }
{
    match value.as_text() {
        Some(text) if text.len() <= LONGEST_SHORT_TEXT => Some(text),
        _ => None,
    }
}

/// A link of kind Node.
#[tactic(auto, unfolding(crate::specs::Forms::node_in))]
pub fn node(value: &Value) -> Option<Cid>
    ensures value { result ≡ node_in (item_of value.now) }
    ensures node { IfSome result (λ link. IsNodeLink link) }
{
    let link = value.as_link()?;
    match link.kind() {
        Kind::Node => Some(link),
        Kind::Raw => None,
    }
}

/// An integer from 0 to 2^53 - 1.
#[tactic(auto, unfolding(crate::specs::Forms::number_in))]
pub fn number(value: &Value) -> Option<u64>
    ensures value { result ≡ number_in (item_of value.now) }
    ensures below { IfSome result (λ number. number < NUMBERS) }
{
    match value.as_int() {
        Some(number) if number >= 0 && (number as u64) < NUMBERS => Some(number as u64),
        _ => None,
    }
}
