//! The item at the front of some bytes.

ghost use Rattle.std.specs.Prelude.{◌≡◌, ◌++◌, ◌≤◌, ℕ, List, length, take, IfOk, IfErr, Ok, Some};
ghost use Rattle.at_cbor.specs.Decoding.{fault_of, decoded, Decodes};
ghost use Rattle.at_cbor.specs.Faults.{Blames};
ghost use Rattle.at_cbor.specs.Item.{Item};
ghost use Rattle.at_cbor.specs.Encoding.{encoding, nesting, Fits};
ghost use Rattle.at_cbor.specs.View.{item_of};

use crate::fault::{Cause, CborFault, Stop};
use crate::reader::ByteReader;
use crate::reading::read_item;
use crate::value::Value;
use std::alloc::Global;

/// How many lists and maps may be in one another.
pub const DEPTH: u8 = 64;

fn fault_at(cause: Cause, place: usize) -> CborFault
    ensures { fault_of result ≡ Some (cause, place) }
{
    match cause {
        Cause::Short => CborFault::Short(place),
        Cause::NotShortest => CborFault::NotShortest(place),
        Cause::Indefinite => CborFault::Indefinite(place),
        Cause::KeyOrder => CborFault::KeyOrder(place),
        Cause::BadText => CborFault::BadText(place),
        Cause::BadTag => CborFault::BadTag(place),
        Cause::BadSimple => CborFault::BadSimple(place),
        Cause::TooDeep => CborFault::TooDeep(place),
        Cause::IntRange => CborFault::IntRange(place),
    }
}

#[tactic(auto, using(crate::proofs::Decoded::rest_within, crate::proofs::Decoded::flaw_within), unfolding(crate::specs::Decoding::decoded))]
fn whole(alloc: Global, bytes: &[u8]) -> Result<(Value, usize), CborFault>
    ensures { Decodes result (decoded bytes.now) }
{
    let mut reader = ByteReader::new(bytes);
    match read_item(alloc, DEPTH, &mut reader) {
        Ok(value) => Ok((value, bytes.len() - reader.rest().len())),
        Err(Stop::Memory) => Err(CborFault::Memory),
        Err(Stop::At(cause, left)) => Err(fault_at(cause, bytes.len() - left)),
    }
}

/// The item at the front of the bytes, and its length.
///
/// A fault has the place, counted from 0, of the first byte of the head that breaks a rule. Heads are looked at from left
/// to right, and at each head the rules are asked in one order: cut, indefinite, no simple value, not shortest, out of
/// range, bad tag, no text as a key, too deep, a string that is cut, no UTF-8, a key out of order. What a head counts
/// reserves no memory.
pub fn decode(alloc: Global, bytes: &[u8]) -> Result<(Value, usize), CborFault>
    // What is read is encoded so.
    ensures found { IfOk result
        (λ x. Fits (item_of x.0) DEPTH × (take x.1 bytes.now ≡ encoding (item_of x.0))) }
    ensures within { IfOk result (λ x. x.1 ≤ length bytes.now) }
    ensures nested { IfOk result (λ x. nesting (item_of x.0) ≤ DEPTH) }
    // What is encoded so is read, unless memory runs out.
    ensures only { (i : Item) (rest : List ℕ) → Fits i DEPTH
        → bytes.now ≡ encoding i ++ rest → Decodes result (Ok (i, length (encoding i))) }
    // Which fault it is, and where.
    ensures exact { Decodes result (decoded bytes.now) }
    // All in front of the place keeps the rules, and what stands there breaks the rule that is named.
    ensures broken { IfErr result (λ e. Blames bytes.now (fault_of e)) }
{
    whole(alloc, bytes)
}
