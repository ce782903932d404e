//! A field of a map.

ghost use Rattle.std.specs.Prelude.{◌≡◌, ◌<◌, None, IfSome, length, option_map, map};
ghost use Rattle.at_cbor.specs.Item.{are_ascending, fields_of};
ghost use Rattle.at_cbor.specs.Kinds.{field_of, place_from, value_of, value_put};
ghost use Rattle.at_cbor.specs.View.{item_of, pair_of};

use crate::value::{Fields, Value};
use at_cid::Words;
use std::mem;

fn value_at<'a>(fields: &'a [(Words, Value)], name: &str) -> Option<&'a Value>
    ensures { option_map (λ value. item_of value.now) result
        ≡ value_of (fields_of (map pair_of fields.now)) name.now }
{
    for (key, value) in fields {
        if key.as_bytes() == name.as_bytes() {
            return Some(value);
        }
    }
    None
}

fn place_of(fields: &[(Words, Value)], name: &str) -> Option<usize>
    ensures first { result ≡ place_from 0 (fields_of (map pair_of fields.now)) name.now }
    ensures inside { IfSome result (λ place. place < length fields.now) }
{
    for (place, (key, _)) in fields.iter().enumerate() {
        if key.as_bytes() == name.as_bytes() {
            return Some(place);
        }
    }
    None
}

/// Puts a value in the place of a key's, where it is there, and gives the one that it had.
pub(crate) fn replace_in(fields: &mut [(Words, Value)], name: &str, value: Value) -> Option<Value>
    ensures taken { option_map item_of result
        ≡ value_of (fields_of (map pair_of fields.old)) name.now }
    ensures put { fields_of (map pair_of fields.new) ≡ value_put name.now
        (item_of value) (fields_of (map pair_of fields.old)) }
    ensures ascending { are_ascending None (map pair_of fields.new)
        ≡ are_ascending None (map pair_of fields.old) }
{
    let Some(place) = place_of(fields, name) else {
        return None;
    };
    Some(mem::replace(&mut fields[place].1, value))
}

impl Fields {
    /// The value of a key, where it is there. Takes no memory.
    pub fn find(&self, name: &str) -> Option<&Value>
        ensures { option_map (λ value. item_of value.now) result
            ≡ value_of (fields_of self.now) name.now }
    {
        value_at(self.as_slice(), name)
    }
}

/// The value of a key, where the value is a map that has it. Takes no memory.
pub fn field<'a>(map: &'a Value, name: &str) -> Option<&'a Value>
    ensures { option_map (λ value. item_of value.now) result ≡ field_of (item_of map.now) name.now }
{
    match map {
        Value::Map(fields) => fields.find(name),
        _ => None,
    }
}
