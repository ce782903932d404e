//! The encoding of values, added to bytes piece by piece.

ghost use Rattle.std.specs.Prelude.{◌≡◌, ◌++◌, ◌<◌, ◌∷◌, [], length, map, take, true, false, None, OnOk, OnErr};
ghost use Rattle.at_cbor.specs.declared.major.Major.{Major};
ghost use Rattle.at_cbor.specs.Item.{Item, items_of, fields_of, are_ascending};
ghost use Rattle.at_cbor.specs.Encoding.{front_of, text_encoding, encoding, items_encoding, fields_encoding, IsText, IsSpellable, AreSpellable, AreFieldsSpellable};
ghost use Rattle.at_cbor.specs.View.{item_of, pair_of};

use crate::major::Major;
use crate::value::Value;
use at_cid::{Cid, Memory, Octets, Words};

/// Writes a major type and its argument, in the shortest form.
#[tactic(auto, unfolding(crate::specs::Encoding::info_of, crate::specs::Encoding::tail_of))]
#[inline]
fn write_front(out: &mut Octets, major: Major, n: u64) -> Result<(), Memory>
    ensures written { OnOk result (out.new ≡ out.old ++ front_of major n) }
    ensures err { OnErr result (take (length out.old) out.new ≡ out.old) }
{
    let high = 32 * major.number();
    if n < 24 {
        out.push(high + n as u8)
    } else if n < 1 << 8 {
        out.push(high + 24)?;
        out.push(n as u8)
    } else if n < 1 << 16 {
        out.push(high + 25)?;
        out.extend(&(n as u16).to_be_bytes())
    } else if n < 1 << 32 {
        out.push(high + 26)?;
        out.extend(&(n as u32).to_be_bytes())
    } else {
        out.push(high + 27)?;
        out.extend(&n.to_be_bytes())
    }
}

/// Adds an integer. Where memory runs out, what was there stays in front.
#[inline]
pub fn write_int(out: &mut Octets, number: i64) -> Result<(), Memory>
    ensures written { OnOk result (out.new ≡ out.old ++ encoding (Item.int number)) }
    ensures spellable { OnOk result (IsSpellable (Item.int number)) }
    ensures err { OnErr result (take (length out.old) out.new ≡ out.old) }
{
    if number >= 0 {
        write_front(out, Major::Unsigned, number as u64)
    } else {
        write_front(out, Major::Negative, (-1 - number) as u64)
    }
}

/// Adds a string of bytes. Where memory runs out, what was there stays in front.
#[inline]
pub fn write_bytes(out: &mut Octets, bytes: &[u8]) -> Result<(), Memory>
    ensures written { OnOk result (out.new ≡ out.old ++ encoding (Item.bytes bytes.now)) }
    ensures spellable { OnOk result (IsSpellable (Item.bytes bytes.now)) }
    ensures err { OnErr result (take (length out.old) out.new ≡ out.old) }
{
    write_front(out, Major::Bytes, bytes.len() as u64)?;
    out.extend(bytes)
}

/// Adds a text. A key of a map is encoded as a text too. Where memory runs out, what was there stays in front.
#[tactic(auto, using(crate::proofs::Texts::tests_of_text))]
pub fn write_text(out: &mut Octets, text: &str) -> Result<(), Memory>
    ensures written { OnOk result (out.new ≡ out.old ++ text_encoding text.now) }
    ensures spellable { OnOk result (IsSpellable (Item.text text.now)) }
    ensures err { OnErr result (take (length out.old) out.new ≡ out.old) }
{
    write_front(out, Major::Text, text.len() as u64)?;
    out.extend(text.as_bytes())
}

/// Adds an unsigned number, up to 2^64 - 1. Where memory runs out, what was there stays in front.
#[inline]
pub fn write_number(out: &mut Octets, number: u64) -> Result<(), Memory>
    ensures written { OnOk result (out.new ≡ out.old ++ front_of Major.Unsigned number) }
    ensures err { OnErr result (take (length out.old) out.new ≡ out.old) }
{
    write_front(out, Major::Unsigned, number)
}

/// Adds the front of a list of so many values, which are to follow. Where memory runs out, what was there stays in front.
#[inline]
pub fn write_list_front(out: &mut Octets, count: usize) -> Result<(), Memory>
    ensures written { OnOk result (out.new ≡ out.old ++ front_of Major.List count) }
    ensures err { OnErr result (take (length out.old) out.new ≡ out.old) }
{
    write_front(out, Major::List, count as u64)
}

/// Adds the front of a map of so many fields, of which each key and its value are to follow. Where memory runs out, what was
/// there stays in front.
#[inline]
pub fn write_map_front(out: &mut Octets, count: usize) -> Result<(), Memory>
    ensures written { OnOk result (out.new ≡ out.old ++ front_of Major.Map count) }
    ensures err { OnErr result (take (length out.old) out.new ≡ out.old) }
{
    write_front(out, Major::Map, count as u64)
}

/// Adds a link. Where memory runs out, what was there stays in front.
#[inline]
pub fn write_link(out: &mut Octets, link: &Cid) -> Result<(), Memory>
    ensures written { OnOk result (out.new ≡ out.old ++ encoding (Item.link link.now)) }
    ensures spellable { OnOk result (IsSpellable (Item.link link.now)) }
    ensures err { OnErr result (take (length out.old) out.new ≡ out.old) }
{
    out.extend(&[0xd8, 0x2a, 0x58, 0x25, 0])?;
    out.extend(link.as_bytes())
}

/// Adds true or false.
pub fn write_bool(out: &mut Octets, truth: bool) -> Result<(), Memory>
    ensures written { OnOk result (out.new ≡ out.old ++ encoding (Item.bool truth)) }
    ensures err { OnErr result (take (length out.old) out.new ≡ out.old) }
{
    if truth {
        out.push(0xf5)
    } else {
        out.push(0xf4)
    }
}

/// Adds null.
pub fn write_null(out: &mut Octets) -> Result<(), Memory>
    ensures written { OnOk result (out.new ≡ out.old ++ encoding Item.null) }
    ensures err { OnErr result (take (length out.old) out.new ≡ out.old) }
{
    out.push(0xf6)
}

/// Adds a value. Where memory runs out, what was there stays in front.
pub fn write_value(out: &mut Octets, value: &Value) -> Result<(), Memory>
    ensures written { OnOk result (out.new ≡ out.old ++ encoding (item_of value.now)) }
    ensures spellable { OnOk result (IsSpellable (item_of value.now)) }
    ensures err { OnErr result (take (length out.old) out.new ≡ out.old) }
{
    put_value(out, value)
}

// A text that is a value or a key, and what its type says of it.
fn put_words(out: &mut Octets, text: &Words) -> Result<(), Memory>
    ensures written { OnOk result (out.new ≡ out.old ++ text_encoding text.now) }
    ensures text { OnOk result (IsText text.now) }
    ensures err { OnErr result (take (length out.old) out.new ≡ out.old) }
{
    write_front(out, Major::Text, text.len() as u64)?;
    out.extend(text.as_bytes())
}

#[cycle(write)]
fn put_value(out: &mut Octets, value: &Value) -> Result<(), Memory>
    ensures written { OnOk result (out.new ≡ out.old ++ encoding (item_of value.now)) }
    ensures spellable { OnOk result (IsSpellable (item_of value.now)) }
    ensures err { OnErr result (take (length out.old) out.new ≡ out.old) }
{
    match value {
        Value::Int(number) => write_int(out, *number),
        Value::Bytes(bytes) => write_bytes(out, bytes.as_slice()),
        Value::Text(text) => put_words(out, text),
        Value::List(values) => {
            write_list_front(out, values.len())?;
            put_values(out, values.as_slice())
        }
        Value::Map(fields) => {
            write_map_front(out, fields.len())?;
            put_fields(out, fields.as_slice())
        }
        Value::Link(link) => write_link(out, link),
        Value::Bool(truth) => write_bool(out, *truth),
        Value::Null => write_null(out),
    }
}

#[cycle(write)]
fn put_values(out: &mut Octets, values: &[Value]) -> Result<(), Memory>
    ensures written { OnOk result
        (out.new ≡ out.old ++ items_encoding (items_of (map item_of values.now))) }
    ensures spellable { OnOk result (AreSpellable (map item_of values.now)) }
    ensures err { OnErr result (take (length out.old) out.new ≡ out.old) }
{
    for value in values {
        put_value(out, value)?;
    }
    Ok(())
}

#[cycle(write)]
fn put_fields(out: &mut Octets, fields: &[(Words, Value)]) -> Result<(), Memory>
    requires { are_ascending None (map pair_of fields.now) ≡ true }
    ensures written { OnOk result
        (out.new ≡ out.old ++ fields_encoding (fields_of (map pair_of fields.now))) }
    ensures spellable { OnOk result (AreFieldsSpellable (map pair_of fields.now)) }
    ensures err { OnErr result (take (length out.old) out.new ≡ out.old) }
{
    for (key, value) in fields {
        put_words(out, key)?;
        put_value(out, value)?;
    }
    Ok(())
}
