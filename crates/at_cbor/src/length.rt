//! The length of an encoding, without writing it.

ghost use Rattle.std.specs.Prelude.{◌≡◌, ◌-◌, ◌^◌, ◌+◌, length, map, min};
ghost use Rattle.at_cbor.specs.declared.major.Major.{Major};
ghost use Rattle.at_cbor.specs.Item.{Item, items_of, fields_of};
ghost use Rattle.at_cbor.specs.Encoding.{front_of, text_encoding, encoding, items_encoding, fields_encoding};
ghost use Rattle.at_cbor.specs.View.{item_of, pair_of};

use crate::value::Value;
use at_cid::Words;

/// How many bytes a head has: a major type and its argument in the shortest form (RFC 8949, section 3). It is the same for
/// each major type.
#[tactic(auto, unfolding(crate::specs::Encoding::tail_of))]
pub fn front_len(n: u64) -> u64
    ensures { result ≡ length (front_of Major.Unsigned n) }
{
    if n < 24 {
        1
    } else if n < 1 << 8 {
        2
    } else if n < 1 << 16 {
        3
    } else if n < 1 << 32 {
        5
    } else {
        9
    }
}

/// How many bytes a byte string or a text of so many bytes has with its head, or the greatest `u64` where that is less.
pub fn string_len(count: usize) -> u64
    ensures { result ≡ min (length (front_of Major.Unsigned count) + count) (2 ^ 64 - 1) }
{
    front_len(count as u64).saturating_add(count as u64)
}

fn int_len(number: i64) -> u64
    ensures { result ≡ length (encoding (Item.int number)) }
{
    if number >= 0 {
        front_len(number as u64)
    } else {
        front_len((-1 - number) as u64)
    }
}

/// How many bytes the encoding of a value has, or the greatest `u64` where that is less. Takes no memory.
pub fn encoded_len(value: &Value) -> u64
    ensures { result ≡ min (length (encoding (item_of value.now))) (2 ^ 64 - 1) }
{
    value_len(value)
}

#[cycle(len)]
fn value_len(value: &Value) -> u64
    ensures { result ≡ min (length (encoding (item_of value.now))) (2 ^ 64 - 1) }
{
    match value {
        Value::Int(number) => int_len(*number),
        Value::Bytes(bytes) => string_len(bytes.len()),
        Value::Text(text) => string_len(text.len()),
        Value::List(values) => {
            let front = front_len(values.len() as u64);
            front.saturating_add(values_len(values.as_slice()))
        }
        Value::Map(fields) => {
            let front = front_len(fields.len() as u64);
            front.saturating_add(fields_len(fields.as_slice()))
        }
        Value::Link(link) => 5 + link.as_bytes().len() as u64,
        Value::Bool(_) => 1,
        Value::Null => 1,
    }
}

#[cycle(len)]
fn values_len(values: &[Value]) -> u64
    ensures { result ≡ min (length (items_encoding (items_of (map item_of values.now))))
        (2 ^ 64 - 1) }
{
    let mut sum: u64 = 0;
    for value in values {
        sum = sum.saturating_add(value_len(value));
    }
    sum
}

#[cycle(len)]
fn fields_len(fields: &[(Words, Value)]) -> u64
    ensures { result ≡ min (length (fields_encoding (fields_of (map pair_of fields.now))))
        (2 ^ 64 - 1) }
{
    let mut sum: u64 = 0;
    for (key, value) in fields {
        sum = sum.saturating_add(string_len(key.len()));
        sum = sum.saturating_add(value_len(value));
    }
    sum
}
