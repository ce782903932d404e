//! Items, read from left to right.

ghost use Rattle.std.specs.Prelude.{◌≡◌, length, MatchOption, true, false, None};
ghost use Rattle.std.specs.Str.{is_utf8};
ghost use Rattle.at_cid.specs.Memory.{Gives};
ghost use Rattle.at_cbor.specs.Heads.{flaw_of, head_at};
ghost use Rattle.at_cbor.specs.declared.head.Head.{Head};
ghost use Rattle.at_cbor.specs.Reading.{string_at, text_at, key_of, key_at, items_at, fields_at, body_of, item_at, inside};
ghost use Rattle.at_cbor.specs.Item.{last_key};
ghost use Rattle.at_cbor.specs.View.{item_of, pair_of};

use crate::fault::{Cause, Stop};
use crate::head::{Head, read_head};
use crate::reader::ByteReader;
use crate::value::{Fields, Value, Values};
use at_cid::{Octets, Words};
use std::alloc::Global;

/// The string of so many bytes behind its head.
#[tactic(auto, unfolding(crate::specs::Reading::string_at))]
fn read_string<'a>(reader: &mut ByteReader<'a>, count: u64) -> Result<&'a [u8], Stop>
    ensures string { Gives (λ string. (string.now, reader.new.rest.now)) flaw_of result
        (string_at reader.old.left count reader.old.rest.now) }
    ensures left { reader.new.left ≡ reader.old.left }
{
    match reader.sub(count as usize) {
        Some(string) => Ok(string),
        None => Err(reader.flaw(Cause::Short)),
    }
}

/// The text that the bytes encode.
#[tactic(auto, using(crate::proofs::Texts::tests_of_text))]
fn text_of(bytes: &[u8]) -> Option<&str>
    ensures { MatchOption result
        (is_utf8 bytes.now ≡ false) (λ text. (text.now ≡ bytes.now) × (is_utf8 bytes.now ≡ true)) }
{
    match str::from_utf8(bytes) {
        Ok(text) => Some(text),
        Err(_) => None,
    }
}

/// The text of so many bytes behind its head.
#[tactic(auto, unfolding(crate::specs::Reading::text_at))]
fn read_text(alloc: Global, reader: &mut ByteReader, count: u64) -> Result<Words, Stop>
    ensures text { Gives (λ text. (text, reader.new.rest.now)) flaw_of result
        (text_at reader.old.left count reader.old.rest.now) }
    ensures left { reader.new.left ≡ reader.old.left }
{
    let string = read_string(reader, count)?;
    let Some(text) = text_of(string) else {
        return Err(reader.flaw(Cause::BadText));
    };
    Ok(Words::from_str(alloc, text)?)
}

/// The key of so many bytes behind its head, which comes behind those of the fields.
#[tactic(auto, unfolding(crate::specs::Reading::key_of))]
#[inline(always)]
fn read_key_text(
    alloc: Global,
    fields: &Fields,
    reader: &mut ByteReader,
    count: u64,
) -> Result<Words, Stop>
    ensures { Gives (λ key. (key, reader.new.rest.now)) flaw_of result
        (key_of (last_key fields.now) reader.old.left (Head.Text count) reader.old.rest.now) }
{
    let key = read_text(alloc, reader, count)?;
    if !fields.admits(&key) {
        return Err(reader.flaw(Cause::KeyOrder));
    }
    Ok(key)
}

/// The key behind a head.
#[tactic(auto, unfolding(crate::specs::Reading::key_of))]
fn read_key_of(
    alloc: Global,
    fields: &Fields,
    reader: &mut ByteReader,
    head: Head,
) -> Result<Words, Stop>
    ensures { Gives (λ key. (key, reader.new.rest.now)) flaw_of result
        (key_of (last_key fields.now) reader.old.left head reader.old.rest.now) }
{
    match head {
        Head::Text(count) => read_key_text(alloc, fields, reader, count),
        _ => Err(reader.flaw(Cause::KeyOrder)),
    }
}

/// The key at the front. Almost every key is a short text.
#[tactic(auto, unfolding(crate::specs::Reading::key_at))]
fn read_key(alloc: Global, fields: &Fields, reader: &mut ByteReader) -> Result<Words, Stop>
    ensures { Gives (λ key. (key, reader.new.rest.now)) flaw_of result
        (key_at (last_key fields.now) reader.old.rest.now) }
{
    if let Some(count) = reader.short_text() {
        return read_key_text(alloc, fields, reader, count);
    }
    let head = read_head(reader)?;
    read_key_of(alloc, fields, reader, head)
}

/// The item at the front, which has at most so many lists and maps in one another.
#[cycle(read)]
#[tactic(auto, using(crate::proofs::Loops::item_at_is), unfolding(crate::specs::Reading::body_of))]
pub(crate) fn read_item(alloc: Global, depth: u8, reader: &mut ByteReader) -> Result<Value, Stop>
    ensures { Gives (λ value. (item_of value, reader.new.rest.now)) flaw_of result
        (item_at depth reader.old.rest.now) }
{
    if let Some(count) = reader.short_text() {
        return Ok(Value::Text(read_text(alloc, reader, count)?));
    }
    if let Some(link) = reader.link() {
        return Ok(Value::Link(link));
    }
    let head = read_head(reader)?;
    read_body(alloc, depth, reader, head)
}

#[cycle(read)]
#[tactic(auto, unfolding(crate::specs::Reading::body_of))]
fn read_body(alloc: Global, depth: u8, reader: &mut ByteReader, head: Head) -> Result<Value, Stop>
    ensures { Gives (λ value. (item_of value, reader.new.rest.now)) flaw_of result
        (body_of (inside depth) reader.old.left head reader.old.rest.now) }
{
    match head {
        Head::Int(number) => Ok(Value::Int(number)),
        Head::Bytes(count) => {
            let string = read_string(reader, count)?;
            Ok(Value::Bytes(Octets::from_slice(alloc, string)?))
        }
        Head::Text(count) => Ok(Value::Text(read_text(alloc, reader, count)?)),
        Head::List(_) | Head::Map(_) if depth == 0 => Err(reader.flaw(Cause::TooDeep)),
        Head::List(count) => Ok(Value::List(read_values(alloc, depth - 1, reader, count)?)),
        Head::Map(count) => Ok(Value::Map(read_fields(alloc, depth - 1, reader, count)?)),
        Head::Link(link) => Ok(Value::Link(link)),
        Head::Bool(truth) => Ok(Value::Bool(truth)),
        Head::Null => Ok(Value::Null),
    }
}

#[cycle(read)]
fn read_values(
    alloc: Global,
    depth: u8,
    reader: &mut ByteReader,
    count: u64,
) -> Result<Values, Stop>
    ensures { Gives (λ values. (values, reader.new.rest.now)) flaw_of result
        (items_at (item_at depth) count reader.old.rest.now) }
{
    let mut values = Values::new(alloc);
    'values: for _ in 0..count {
        let value = read_item(alloc, depth, reader)?;
        values.make_room(count)?;
        values.push(value)?;
    }
    Ok(values)
}

#[cycle(read)]
fn read_fields(
    alloc: Global,
    depth: u8,
    reader: &mut ByteReader,
    count: u64,
) -> Result<Fields, Stop>
    ensures { Gives (λ fields. (fields, reader.new.rest.now)) flaw_of result
        (fields_at (item_at depth) None count reader.old.rest.now) }
{
    let mut fields = Fields::new(alloc);
    'fields: for _ in 0..count {
        let key = read_key(alloc, &fields, reader)?;
        let value = read_item(alloc, depth, reader)?;
        fields.make_room(count)?;
        fields.push(key, value)?;
    }
    Ok(fields)
}
