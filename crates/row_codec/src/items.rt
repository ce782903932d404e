//! Items at the front of bytes, each read as the one kind that it is to be.

ghost use Rattle.std.specs.Prelude.{◌≡◌, ◌∷◌, [], option_map};
ghost use Rattle.at_cbor.specs.Taking.{behind as behind_front};
ghost use Rattle.at_cbor.specs.declared.major.Major.{Major};
ghost use Rattle.row_codec.specs.Readers.{Reads, behind, number_at, byte_at, place_at, text_at, bytes_at, bool_at, link_at, rev_at, null_or_rev_at, null_or_text_at, count_at};

use crate::fault::RowFault;
use crate::reader::ItemReader;
use at_cbor::{INTEGERS, Major, take_bytes, take_link, take_list_front, take_number, take_text};
use at_cid::{Cid, Octets, Words, ghost_bytes};
use at_syntax::Tid;
use relay_row::PLACES;

/// A number from 0 on.
#[tactic(auto, using(crate::proofs::ByKind::number_is))]
pub fn read_number(reader: &mut ItemReader) -> Result<u64, RowFault>
    ensures { Reads (λ x. (x, reader.new.rest.now)) result (number_at reader.old.rest.now) }
{
    ghost_bytes(reader.rest);
    match take_number(Major::Unsigned, reader.rest) {
        Some((number, rest)) if number < INTEGERS => {
            reader.rest = rest;
            Ok(number)
        }
        _ => Err(RowFault::BadRow),
    }
}

/// A number of one byte.
#[tactic(auto, using(crate::proofs::ByKind::byte_is))]
pub fn read_byte(reader: &mut ItemReader) -> Result<u8, RowFault>
    ensures { Reads (λ x. (x, reader.new.rest.now)) result (byte_at reader.old.rest.now) }
{
    let number = read_number(reader)?;
    if number < 256 {
        Ok(number as u8)
    } else {
        Err(RowFault::BadRow)
    }
}

/// A number of four bytes.
#[tactic(auto, using(crate::proofs::ByKind::place_is))]
pub fn read_place(reader: &mut ItemReader) -> Result<u32, RowFault>
    ensures { Reads (λ x. (x, reader.new.rest.now)) result (place_at reader.old.rest.now) }
{
    let number = read_number(reader)?;
    if number < PLACES {
        Ok(number as u32)
    } else {
        Err(RowFault::BadRow)
    }
}

/// A text, lent by the bytes that are read.
#[tactic(auto, using(crate::proofs::ByKind::text_is))]
fn lend_text<'a>(reader: &mut ItemReader<'a>) -> Result<&'a str, RowFault>
    ensures { Reads (λ x. (x.now, reader.new.rest.now)) result (text_at reader.old.rest.now) }
{
    ghost_bytes(reader.rest);
    let Some((text, rest)) = take_text(reader.rest) else {
        return Err(RowFault::BadRow);
    };
    reader.rest = rest;
    Ok(text)
}

/// A text.
pub fn read_text(reader: &mut ItemReader) -> Result<Words, RowFault>
    ensures { Reads (λ x. (x, reader.new.rest.now)) result (text_at reader.old.rest.now) }
{
    let text = lend_text(reader)?;
    Ok(Words::from_str(reader.alloc, text)?)
}

/// A string of bytes.
#[tactic(auto, using(crate::proofs::ByKind::bytes_is))]
pub fn read_bytes(reader: &mut ItemReader) -> Result<Octets, RowFault>
    ensures { Reads (λ x. (x, reader.new.rest.now)) result (bytes_at reader.old.rest.now) }
{
    ghost_bytes(reader.rest);
    let Some((string, rest)) = take_bytes(reader.rest) else {
        return Err(RowFault::BadRow);
    };
    reader.rest = rest;
    Ok(Octets::from_slice(reader.alloc, string)?)
}

/// The bytes behind this one, where it stands in front.
#[tactic(auto, unfolding(at_cbor::specs::Taking::behind))]
fn take_byte(byte: u8, bytes: &[u8]) -> Option<&[u8]>
    ensures { option_map (λ rest. rest.now) result ≡ behind_front (byte ∷ []) bytes.now }
{
    match bytes {
        [first, rest @ ..] if *first == byte => Some(rest),
        _ => None,
    }
}

/// True or false.
#[tactic(auto, using(crate::proofs::ByKind::bool_is))]
pub fn read_bool(reader: &mut ItemReader) -> Result<bool, RowFault>
    ensures { Reads (λ x. (x, reader.new.rest.now)) result (bool_at reader.old.rest.now) }
{
    ghost_bytes(reader.rest);
    if let Some(rest) = take_byte(0xf4, reader.rest) {
        reader.rest = rest;
        return Ok(false);
    }
    if let Some(rest) = take_byte(0xf5, reader.rest) {
        reader.rest = rest;
        return Ok(true);
    }
    Err(RowFault::BadRow)
}

/// A link.
#[tactic(auto, using(crate::proofs::ByKind::link_is))]
pub fn read_link(reader: &mut ItemReader) -> Result<Cid, RowFault>
    ensures { Reads (λ x. (x, reader.new.rest.now)) result (link_at reader.old.rest.now) }
{
    ghost_bytes(reader.rest);
    match take_link(reader.rest) {
        Some((link, rest)) => {
            reader.rest = rest;
            Ok(link)
        }
        None => Err(RowFault::BadRow),
    }
}

/// A revision.
#[tactic(auto, using(crate::proofs::ByKind::rev_is))]
pub fn read_rev(reader: &mut ItemReader) -> Result<Tid, RowFault>
    ensures { Reads (λ x. (x, reader.new.rest.now)) result (rev_at reader.old.rest.now) }
{
    let text = lend_text(reader)?;
    match Tid::parse(text) {
        Some(rev) => Ok(rev),
        None => Err(RowFault::BadRow),
    }
}

/// A revision, or null.
#[tactic(auto, using(crate::proofs::ByKind::null_or_rev_is))]
pub fn read_null_or_rev(reader: &mut ItemReader) -> Result<Option<Tid>, RowFault>
    ensures { Reads (λ x. (x, reader.new.rest.now)) result (null_or_rev_at reader.old.rest.now) }
{
    ghost_bytes(reader.rest);
    if let Some(rest) = take_byte(0xf6, reader.rest) {
        reader.rest = rest;
        return Ok(None);
    }
    let rev = read_rev(reader)?;
    Ok(Some(rev))
}

/// A text, or null.
#[tactic(auto, using(crate::proofs::ByKind::null_or_text_is))]
pub fn read_null_or_text(reader: &mut ItemReader) -> Result<Option<Words>, RowFault>
    ensures { Reads (λ x. (x, reader.new.rest.now)) result (null_or_text_at reader.old.rest.now) }
{
    ghost_bytes(reader.rest);
    if let Some(rest) = take_byte(0xf6, reader.rest) {
        reader.rest = rest;
        return Ok(None);
    }
    let text = read_text(reader)?;
    Ok(Some(text))
}

/// The front of a list: how many items follow.
#[tactic(auto, unfolding(crate::specs::Readers::count_at))]
pub fn read_count(reader: &mut ItemReader) -> Result<u64, RowFault>
    ensures { Reads (λ x. (x, reader.new.rest.now)) result (count_at reader.old.rest.now) }
{
    match take_list_front(reader.rest) {
        Some((count, rest)) => {
            reader.rest = rest;
            Ok(count)
        }
        None => Err(RowFault::BadRow),
    }
}
