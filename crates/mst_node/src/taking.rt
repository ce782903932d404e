//! The parts of a node, taken from its block from left to right.

ghost use Rattle.std.specs.Prelude.{◌≡◌, ◌<◌, ◌≤◌, ◌+◌, ◌*◌, ◌/◌, ◌∷◌, ◌++◌, [], Some, true, length, map, min, take, option_map, vec_len, vec_capacity, IfOk, OnOk, IfSome, IsSome};
ghost use Rattle.mst_node.specs.Nodes.{entry_with};
ghost use Rattle.std.specs.List.{list_all};
ghost use Rattle.at_cid.specs.Link.{link_at};
ghost use Rattle.at_cbor.specs.Taking.{child_at};
ghost use Rattle.mst_node.specs.Reading.{key_before};
ghost use Rattle.mst_node.specs.declared.taking.TheConstants.{FEWEST_ENTRY_BYTES};
ghost use Rattle.mst_node.specs.Taking.{IsTaken, key_at, right_at, value_at, goes_above, link_of, value_in, may_follow, next_at, entries_at, front_at, end_at, node_at};

use crate::fault::NodeFault;
use crate::keyed::Keyed;
use at_cbor::{Major, take_behind, take_bytes, take_child, take_list_front, take_number};
use at_cid::{Cid, Kind, LINK_LEN, Memory, parse_binary};
use mst_list::{KeyBytes, MOST_KEY_BYTES};
use std::alloc::Global;

/// What begins with the link of an entry's value, its last field. What stands in front of the link is compared as a whole.
#[tactic(auto, using(crate::proofs::Pointers::value_is))]
#[inline(always)]
fn find_value(bytes: &[u8]) -> Option<&[u8]>
    ensures { value_in (option_map (λ front. front.now) result) ≡ value_at bytes.now }
{
    take_behind(&[0x61, b'v', 0xd8, 0x2a, 0x58, 0x25, 0x00], bytes)
}

/// What of an entry's key isn't shared with the key before, how much is, and the bytes behind.
#[tactic(auto, unfolding(crate::specs::Taking::key_at))]
#[inline(always)]
fn take_key(bytes: &[u8]) -> Option<(&[u8], usize, &[u8])>
    ensures { option_map (λ x. ((x.0.now, x.1), x.2.now)) result ≡ key_at bytes.now }
{
    let Some(rest) = take_behind(&[0xa4, 0x61, b'k'], bytes) else {
        return None;
    };
    let Some((tail, rest)) = take_bytes(rest) else {
        return None;
    };
    let Some(rest) = take_behind(&[0x61, b'p'], rest) else {
        return None;
    };
    let Some((count, rest)) = take_number(Major::Unsigned, rest) else {
        return None;
    };
    Some((tail, count as usize, rest))
}

/// What begins with a link of kind Node, or none where null stands there, and the bytes behind.
#[tactic(auto, unfolding(at_cbor::specs::Taking::child_at, at_cbor::specs::Taking::link_from_front))]
#[inline(always)]
fn find_child(bytes: &[u8]) -> Option<(Option<&[u8]>, &[u8])>
    ensures taken { option_map (λ x. (link_of (option_map (λ front. front.now) x.0), x.1.now))
        result ≡ child_at bytes.now }
    ensures there { IfSome result (λ x. IfSome x.0 (λ front. IsSome (link_at front.now))) }
{
    let [first, behind_null @ ..] = bytes else {
        return None;
    };
    if *first == 0xf6 {
        return Some((None, behind_null));
    }
    let Some(front) = take_behind(&[0xd8, 0x2a, 0x58, 0x25, 0x00], bytes) else {
        return None;
    };
    let Some(link) = parse_binary(front) else {
        return None;
    };
    if link.kind() != Kind::Node {
        return None;
    }
    Some((Some(front), front.split_at(LINK_LEN).1))
}

/// What begins with the link to the right of an entry, where there is one, and the bytes behind.
#[inline(always)]
fn find_right(bytes: &[u8]) -> Option<(Option<&[u8]>, &[u8])>
    ensures taken { option_map (λ x. (link_of (option_map (λ front. front.now) x.0), x.1.now))
        result ≡ right_at bytes.now }
    ensures there { IfSome result (λ x. IfSome x.0 (λ front. IsSome (link_at front.now))) }
{
    let Some(rest) = take_behind(&[0x61, b't'], bytes) else {
        return None;
    };
    find_child(rest)
}

/// Whether a key goes on where another ends, or its first byte that isn't shared is greater.
fn goes_above(other: &[u8], tail: &[u8]) -> bool
    ensures { result ≡ goes_above other.now tail.now }
{
    let [y, ..] = tail else {
        return false;
    };
    let [x, ..] = other else {
        return true;
    };
    *x < *y
}

/// Whether so many bytes of the key before and these others are a key above it that shares no more with it.
fn may_follow(last: &[u8], count: usize, tail: &[u8]) -> bool
    ensures { result ≡ may_follow last.now count tail.now }
{
    count <= last.len()
        && tail.len() <= MOST_KEY_BYTES
        && count <= MOST_KEY_BYTES - tail.len()
        && goes_above(last.split_at(count).1, tail)
}

/// The key of the last entry, or an empty one.
pub(crate) fn last_key<E: Keyed>(entries: &[E]) -> &[u8]
    ensures { result.now ≡ key_before [] (map E.entry entries.now) }
{
    match entries.last() {
        Some(entry) => entry.key().as_slice(),
        None => &[],
    }
}

/// So many bytes of the last entry's key, and these others, where that key and this one are short.
#[inline(always)]
fn short_key<E: Keyed>(entries: &[E], count: usize, tail: &[u8]) -> Option<KeyBytes>
    requires { count ≤ length (key_before [] (map E.entry entries.now)) }
    ensures { IfSome result
        (λ key. key ≡ take count (key_before [] (map E.entry entries.now)) ++ tail.now) }
{
    match entries.last() {
        Some(entry) => entry.key().going_on(count, tail),
        None => None,
    }
}

/// Room for one more entry, where there is none.
#[inline(always)]
fn make_room<E>(entries: &mut Vec<E>) -> Result<(), Memory>
    ensures items { entries.new.items ≡ entries.old.items }
    ensures len { vec_len entries.new ≡ vec_len entries.old }
    ensures room { OnOk result (vec_len entries.new < vec_capacity entries.new) }
    ensures kept { vec_len entries.old < vec_capacity entries.old
        → vec_capacity entries.new ≡ vec_capacity entries.old }
{
    if entries.len() == entries.capacity() {
        entries.reserve(1)?;
    }
    Ok(())
}

/// Adds an entry with a key, a value, and what begins with the link to its right, where there is one.
#[inline(always)]
fn push_keyed<E: Keyed + Drop>(
    entries: &mut Vec<E>,
    key: KeyBytes,
    value: Cid,
    right: Option<&[u8]>,
) -> Result<(), Memory>
    requires { IfSome right (λ front. IsSome (link_at front.now)) }
    ensures pushed { OnOk result (map E.entry entries.new.items ≡ map E.entry entries.old.items
        ++ entry_with key value (link_of (option_map (λ front. front.now) right.entry)) ∷ []) }
    ensures bare { list_all E.is_bare entries.old.items ≡ true
        → list_all E.is_bare entries.new.items ≡ true }
    ensures one { OnOk result (vec_len entries.new ≡ vec_len entries.old + 1) }
    ensures kept { vec_len entries.old < vec_capacity entries.old
        → OnOk result (vec_capacity entries.new ≡ vec_capacity entries.old) }
{
    make_room(entries)?;
    let Some(front) = right else {
        entries.push_reserved(E::of(key, value, None));
        return Ok(());
    };
    let Some(link) = parse_binary(front) else {
        unreachable!()
    };
    entries.push_reserved(E::of(key, value, Some(link)));
    Ok(())
}

/// Adds the entry at the front, behind the key of the last one.
#[tactic(auto, unfolding(crate::specs::Taking::entry_at, crate::specs::Taking::parts_at))]
fn push_entry<'a, E: Keyed + Drop>(
    alloc: Global,
    entries: &mut Vec<E>,
    bytes: &'a [u8],
) -> Result<&'a [u8], NodeFault>
    ensures taken { IsTaken (λ rest. (map E.entry entries.new.items, rest.now)) result
        (next_at (map E.entry entries.old.items) bytes.now) }
    ensures bare { list_all E.is_bare entries.old.items ≡ true
        → list_all E.is_bare entries.new.items ≡ true }
    ensures one { OnOk result (vec_len entries.new ≡ vec_len entries.old + 1) }
    ensures kept { vec_len entries.old < vec_capacity entries.old
        → OnOk result (vec_capacity entries.new ≡ vec_capacity entries.old) }
{
    let Some((tail, count, rest)) = take_key(bytes) else {
        return Err(NodeFault::BadNode);
    };
    let Some((right, rest)) = find_right(rest) else {
        return Err(NodeFault::BadNode);
    };
    let Some(front) = find_value(rest) else {
        return Err(NodeFault::BadNode);
    };
    let last = last_key(entries.as_slice());
    if !may_follow(last, count, tail) {
        return Err(NodeFault::BadNode);
    }
    let Some(value) = parse_binary(front) else {
        return Err(NodeFault::BadNode);
    };
    let rest = front.split_at(LINK_LEN).1;
    if let Some(key) = short_key(entries.as_slice(), count, tail) {
        push_keyed(entries, key, value, right)?;
        return Ok(rest);
    }
    let key = KeyBytes::joined(alloc, last.split_at(count).0, tail)?;
    push_keyed(entries, key, value, right)?;
    Ok(rest)
}

/// The fewest bytes of an entry: its map with four names, a key of one byte, 0, null and a link.
const FEWEST_ENTRY_BYTES: usize = 54;

/// No entries, with room for so many, or for as many as the bytes can hold where those are fewer.
fn entries_room<E>(alloc: Global, count: usize, bytes: &[u8]) -> Result<Vec<E>, Memory>
    ensures none { IfOk result (λ entries. entries.items ≡ []) }
    ensures len { IfOk result (λ entries. vec_len entries ≡ 0) }
    ensures room { IfOk result (λ entries. vec_capacity entries
        ≡ min count (length bytes.now / FEWEST_ENTRY_BYTES)) }
{
    let entries = Vec::with_capacity(alloc, count.min(bytes.len() / FEWEST_ENTRY_BYTES))?;
    Ok(entries)
}

/// So many entries at the front. Whatever count is claimed, there is no more room for them than the bytes can hold.
fn take_entries<E: Keyed + Drop>(
    alloc: Global,
    count: usize,
    bytes: &[u8],
) -> Result<(Vec<E>, &[u8]), NodeFault>
    ensures taken { IsTaken (λ x. (map E.entry x.0.items, x.1.now)) result
        (entries_at count [] bytes.now) }
    ensures bare { IfOk result (λ x. list_all E.is_bare x.0.items ≡ true) }
    ensures room { IfOk result (λ x. vec_capacity x.0 * FEWEST_ENTRY_BYTES ≤ length bytes.now) }
{
    let mut entries = entries_room(alloc, count, bytes)?;
    let mut rest = bytes;
    'entries: for _ in 0..count {
        rest = push_entry(alloc, &mut entries, rest)?;
    }
    Ok((entries, rest))
}

/// How many entries a node has, and the bytes behind its front.
#[tactic(auto, unfolding(crate::specs::Taking::front_at))]
fn take_front(bytes: &[u8]) -> Option<(u64, &[u8])>
    ensures { option_map (λ x. (x.0, x.1.now)) result ≡ front_at bytes.now }
{
    let rest = take_behind(&[0xa2, 0x61, b'e'], bytes)?;
    take_list_front(rest)
}

/// The link to the left, which ends a node.
#[tactic(auto, unfolding(crate::specs::Taking::end_at))]
fn take_end(bytes: &[u8]) -> Option<Option<Cid>>
    ensures { result ≡ end_at bytes.now }
{
    let rest = take_behind(&[0x61, b'l'], bytes)?;
    match take_child(rest) {
        Some((left, [])) => Some(left),
        _ => None,
    }
}

/// The link to the left and the entries of the node that fills a block.
#[tactic(auto, unfolding(crate::specs::Taking::node_at))]
pub(crate) fn take_node<E: Keyed + Drop>(
    alloc: Global,
    block: &[u8],
) -> Result<(Option<Cid>, Vec<E>), NodeFault>
    ensures taken { IsTaken (λ x. (x.0, map E.entry x.1.items)) result (node_at block.now) }
    ensures bare { IfOk result (λ x. list_all E.is_bare x.1.items ≡ true) }
    ensures room { IfOk result (λ x. vec_capacity x.1 * FEWEST_ENTRY_BYTES ≤ length block.now) }
{
    let Some((count, rest)) = take_front(block) else {
        return Err(NodeFault::BadNode);
    };
    let (entries, rest) = take_entries(alloc, count as usize, rest)?;
    let Some(left) = take_end(rest) else {
        return Err(NodeFault::BadNode);
    };
    Ok((left, entries))
}
