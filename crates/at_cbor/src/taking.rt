//! Pieces taken from the front of some bytes, each with what stands behind it. Nothing is taken where the piece doesn't
//! stand in front in its one encoding.

ghost use Rattle.std.specs.Prelude.{◌≡◌, ◌∷◌, [], IfOk, option_map};
ghost use Rattle.at_cbor.specs.declared.major.Major.{Major};
ghost use Rattle.at_cbor.specs.Heads.{argument_at};
ghost use Rattle.at_cbor.specs.Taking.{behind, number_at, string_behind, string_at, text_from_front, link_from_front, child_at, item_from_front, whole_item};
ghost use Rattle.at_cbor.specs.View.{item_of};

use crate::decoding::DEPTH;
use crate::fault::Stop;
use crate::head::{least, read_argument};
use crate::major::Major;
use crate::reader::ByteReader;
use crate::reading::read_item;
use crate::value::Value;
use at_cid::{Cid, Kind, LINK_LEN, Memory, parse_binary};
use std::alloc::Global;
use std::str;

/// The bytes behind a front, which is compared as a whole.
#[tactic(auto, using(crate::proofs::Taken::behind_short, crate::proofs::Taken::behind_found, crate::proofs::Taken::behind_other))]
#[inline(always)]
pub fn take_behind<'a, const N: usize>(front: &[u8; N], bytes: &'a [u8]) -> Option<&'a [u8]>
    ensures { option_map (λ rest. rest.now) result ≡ behind front.now bytes.now }
{
    let Some((found, rest)) = bytes.split_first_chunk::<N>() else {
        return None;
    };
    if *front == *found { Some(rest) } else { None }
}

/// The argument of a head of this major type in its shortest form.
#[tactic(auto, unfolding(crate::specs::Taking::number_at))]
#[inline]
fn read_number(reader: &mut ByteReader, major: Major) -> Option<u64>
    ensures { option_map (λ n. (n, reader.new.rest.now)) result
        ≡ number_at major reader.old.rest.now }
{
    let first = reader.byte()?;
    let info = first % 32;
    if first / 32 != major.number() || info >= 28 {
        return None;
    }
    let number = read_argument(reader, info)?;
    if number < least(info) {
        return None;
    }
    Some(number)
}

/// The argument, below 2^64, of a head of this major type in its shortest form (RFC 8949, section 3).
#[inline]
pub fn take_number(major: Major, bytes: &[u8]) -> Option<(u64, &[u8])>
    ensures { option_map (λ x. (x.0, x.1.now)) result ≡ number_at major bytes.now }
{
    let mut reader = ByteReader::new(bytes);
    let number = read_number(&mut reader, major)?;
    Some((number, reader.rest()))
}

/// The argument, below 2^64, that the low five bits of a head's first byte announce, in whatever form (RFC 8949,
/// section 3): those bits themselves, or the number in the next 1, 2, 4 or 8 bytes, where there are as many.
#[inline]
pub fn take_argument(info: u8, bytes: &[u8]) -> Option<(u64, &[u8])>
    ensures { option_map (λ x. (x.0, x.1.now)) result ≡ argument_at info bytes.now }
{
    let mut reader = ByteReader::new(bytes);
    let argument = read_argument(&mut reader, info)?;
    Some((argument, reader.rest()))
}

/// How many items the list at the front has, and the bytes behind its head, where they begin.
#[inline]
pub fn take_list_front(bytes: &[u8]) -> Option<(u64, &[u8])>
    ensures { option_map (λ x. (x.0, x.1.now)) result ≡ number_at Major.List bytes.now }
{
    take_number(Major::List, bytes)
}

/// As many bytes as the head of this major type at the front tells.
#[inline]
fn take_string(major: Major, bytes: &[u8]) -> Option<(&[u8], &[u8])>
    ensures { option_map (λ x. (x.0.now, x.1.now)) result ≡ string_behind major bytes.now }
{
    let mut reader = ByteReader::new(bytes);
    let count = read_number(&mut reader, major)?;
    let string = reader.sub(count as usize)?;
    Some((string, reader.rest()))
}

/// The byte string at the front.
#[tactic(auto, unfolding(crate::specs::Taking::string_at))]
#[inline]
pub fn take_bytes(bytes: &[u8]) -> Option<(&[u8], &[u8])>
    ensures { option_map (λ x. (x.0.now, x.1.now)) result ≡ string_at bytes.now }
{
    take_string(Major::Bytes, bytes)
}

/// The text at the front, lent by the bytes. (RFC 8949, section 3.1, major type 3.)
#[tactic(auto, using(crate::proofs::Texts::tests_of_text), unfolding(crate::specs::Taking::text_from_front))]
#[inline]
pub fn take_text(bytes: &[u8]) -> Option<(&str, &[u8])>
    ensures { option_map (λ x. (x.0.now, x.1.now)) result ≡ text_from_front bytes.now }
{
    let (string, rest) = take_string(Major::Text, bytes)?;
    match str::from_utf8(string) {
        Ok(text) => Some((text, rest)),
        Err(_) => None,
    }
}

/// The link at the front: tag 42, the head of a byte string of 37 bytes, a 0, and the bytes of the link.
#[tactic(auto, unfolding(crate::specs::Taking::link_from_front))]
#[inline(always)]
pub fn take_link(bytes: &[u8]) -> Option<(Cid, &[u8])>
    ensures { option_map (λ x. (x.0, x.1.now)) result ≡ link_from_front bytes.now }
{
    let Some(rest) = take_behind(&[0xd8, 0x2a, 0x58, 0x25, 0x00], bytes) else {
        return None;
    };
    let Some(link) = parse_binary(rest) else {
        return None;
    };
    Some((link, rest.split_at(LINK_LEN).1))
}

/// The link of kind Node at the front, or none where null stands there.
#[tactic(auto, unfolding(crate::specs::Taking::child_at))]
#[inline(always)]
pub fn take_child(bytes: &[u8]) -> Option<(Option<Cid>, &[u8])>
    ensures { option_map (λ x. (x.0, x.1.now)) result ≡ child_at bytes.now }
{
    let [first, behind_null @ ..] = bytes else {
        return None;
    };
    if *first == 0xf6 {
        return Some((None, behind_null));
    }
    let Some((link, rest)) = take_link(bytes) else {
        return None;
    };
    if link.kind() != Kind::Node {
        return None;
    }
    Some((Some(link), rest))
}

/// The item at the front, in which at most 64 lists and maps are in one another.
#[tactic(auto, unfolding(crate::specs::Taking::item_from_front))]
pub fn take_item(alloc: Global, bytes: &[u8]) -> Result<Option<(Value, &[u8])>, Memory>
    ensures { IfOk result
        (λ taken. option_map (λ x. (item_of x.0, x.1.now)) taken ≡ item_from_front bytes.now) }
{
    let mut reader = ByteReader::new(bytes);
    match read_item(alloc, DEPTH, &mut reader) {
        Ok(value) => Ok(Some((value, reader.rest()))),
        Err(Stop::Memory) => Err(Memory),
        Err(Stop::At(_, _)) => Ok(None),
    }
}

/// The item that fills the bytes: they are its one encoding, and at most 64 lists and maps are in one another in it.
#[tactic(auto, unfolding(crate::specs::Taking::whole_item))]
pub fn decode_whole(alloc: Global, bytes: &[u8]) -> Result<Option<Value>, Memory>
    ensures { IfOk result (λ whole. option_map item_of whole ≡ whole_item bytes.now) }
{
    match take_item(alloc, bytes)? {
        Some((value, [])) => Ok(Some(value)),
        _ => Ok(None),
    }
}
