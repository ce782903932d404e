//! What a value says, asked by its kind.

ghost use Rattle.std.specs.Prelude.{◌≡◌, option_map, true, IfSome, IsTrue};
ghost use Rattle.std.specs.Str.{is_utf8};
ghost use Rattle.at_cid.specs.Link.{IsBytes, is_link};
ghost use Rattle.at_cbor.specs.Kinds.{int_in, bytes_in, text_in, list_in, map_in, link_in, bool_in, null_in};
ghost use Rattle.at_cbor.specs.View.{item_of};

use crate::value::{Fields, Value, Values};
use at_cid::{Cid, Octets, Words, ghost_bytes, ghost_link, ghost_text};

impl Value {
    /// The integer.
    pub fn as_int(&self) -> Option<i64>
        ensures { result ≡ int_in (item_of self.now) }
    {
        match self {
            Value::Int(number) => Some(*number),
            _ => None,
        }
    }

    /// The string of bytes.
    pub fn as_bytes(&self) -> Option<&Octets>
        ensures value { option_map (λ octets. octets.now) result ≡ bytes_in (item_of self.now) }
        ensures bytes { IfSome result (λ octets. IsBytes octets.now) }
    {
        match self {
            Value::Bytes(bytes) => {
                ghost_bytes(bytes.as_slice());
                Some(bytes)
            }
            _ => None,
        }
    }

    /// The text.
    pub fn as_text(&self) -> Option<&Words>
        ensures value { option_map (λ words. words.now) result ≡ text_in (item_of self.now) }
        ensures utf8 { IfSome result (λ words. is_utf8 words.now ≡ true) }
        ensures bytes { IfSome result (λ words. IsBytes words.now) }
    {
        match self {
            Value::Text(text) => {
                ghost_text(text.as_str());
                Some(text)
            }
            _ => None,
        }
    }

    /// The values of the list.
    #[tactic(auto, using(crate::proofs::Parts::items_same))]
    pub fn as_list(&self) -> Option<&Values>
        ensures { option_map (λ values. values.now) result ≡ list_in (item_of self.now) }
    {
        match self {
            Value::List(values) => Some(values),
            _ => None,
        }
    }

    /// The fields of the map.
    #[tactic(auto, using(crate::proofs::Parts::fields_same))]
    pub fn as_map(&self) -> Option<&Fields>
        ensures { option_map (λ fields. fields.now) result ≡ map_in (item_of self.now) }
    {
        match self {
            Value::Map(fields) => Some(fields),
            _ => None,
        }
    }

    /// The link.
    pub fn as_link(&self) -> Option<Cid>
        ensures value { result ≡ link_in (item_of self.now) }
        ensures link { IfSome result (λ link. IsTrue (is_link link)) }
        ensures bytes { IfSome result (λ link. IsBytes link) }
    {
        match self {
            Value::Link(link) => {
                ghost_link(link);
                Some(*link)
            }
            _ => None,
        }
    }

    /// True or false.
    pub fn as_bool(&self) -> Option<bool>
        ensures { result ≡ bool_in (item_of self.now) }
    {
        match self {
            Value::Bool(truth) => Some(*truth),
            _ => None,
        }
    }

    /// Whether it is null.
    pub fn is_null(&self) -> bool
        ensures { result ≡ null_in (item_of self.now) }
    {
        matches!(self, Value::Null)
    }
}
