//! The pieces of a map.

ghost use Rattle.std.specs.Prelude.{◌≡◌, ◌<◌, ◌≤◌, [], length, is_some, true, Some, None, IfOk, OnOk, OnErr, ◌≢◌};
ghost use Rattle.mst_list.specs.Edits.{put, value_at};
ghost use Rattle.mst_list.specs.Lists.{Ascends, KeysOnly};
ghost use Rattle.whole_map.specs.Pieces.{ArePieces, IsCountBegun, IsPlace, begins_by, flatten};

use crate::piece::{MOST_ENTRIES, Piece};
use at_cid::{Cid, Memory};
use mst_list::{Item, KeyBytes};
use std::alloc::Global;

// How many pieces begin with a key or with one below it.
fn count_begun(pieces: &[Piece], key: &[u8]) -> usize
    requires { ArePieces pieces.now }
    ensures { IsCountBegun key.now pieces.now result }
{
    pieces.partition_point(
        |piece: &Piece| -> bool
            ensures { result ≡ begins_by key.entry.now piece.now }
        { piece.begins_by(key) },
    )
}

/// The place of the piece in which a key stands or would stand: the last one that begins with the key or below it, or else the
/// first one.
pub(crate) fn place_of(pieces: &[Piece], key: &[u8]) -> usize
    requires some { 0 < length pieces.now }
    requires pieces { ArePieces pieces.now }
    ensures { IsPlace key.now pieces.now result }
{
    count_begun(pieces, key).saturating_sub(1)
}

/// The link of a key.
pub(crate) fn value_of(pieces: &[Piece], key: &[u8]) -> Option<Cid>
    requires { ArePieces pieces.now }
    ensures { result ≡ value_at key.now (flatten pieces.now) }
{
    if pieces.is_empty() {
        return None;
    }
    pieces[place_of(pieces, key)].value_of(key)
}

// Cuts the piece at a place in two, where it is full. The map stays the same.
fn split_full(pieces: &mut Vec<Piece>, at: usize) -> Result<(), Memory>
    requires place { at < length pieces.old.items }
    requires pieces { ArePieces pieces.old.items }
    ensures map { flatten pieces.new.items ≡ flatten pieces.old.items }
    ensures pieces { ArePieces pieces.new.items }
    ensures some { 0 < length pieces.new.items }
{
    pieces.reserve(1)?;
    let Some(upper) = pieces[at].split_full()? else {
        return Ok(());
    };
    match pieces.insert(at + 1, upper) {
        Ok(()) => Ok(()),
        Err(_) => unreachable!(),
    }
}

// The place of the piece in which a key would stand, with room for it. The map stays the same.
fn make_way(pieces: &mut Vec<Piece>, key: &[u8]) -> Result<usize, Memory>
    requires some { 0 < length pieces.old.items }
    requires pieces { ArePieces pieces.old.items }
    ensures place { IfOk result (IsPlace key.now pieces.new.items) }
    ensures map { flatten pieces.new.items ≡ flatten pieces.old.items }
    ensures pieces { ArePieces pieces.new.items }
{
    let at = place_of(pieces.as_slice(), key);
    split_full(pieces, at)?;
    Ok(place_of(pieces.as_slice(), key))
}

/// Puts an entry in its place.
pub(crate) fn insert(pieces: &mut Vec<Piece>, key: KeyBytes, link: Cid) -> Result<(), Memory>
    requires pieces { ArePieces pieces.old.items }
    requires absent { value_at key (flatten pieces.old.items) ≡ None }
    ensures put { OnOk result
        (flatten pieces.new.items ≡ put key (Some link) (flatten pieces.old.items)) }
    ensures same { OnErr result (flatten pieces.new.items ≡ flatten pieces.old.items) }
    ensures pieces { ArePieces pieces.new.items }
{
    if pieces.is_empty() {
        let piece = Piece::new(*pieces.allocator(), key, link)?;
        // Most maps of a mirror have one piece.
        pieces.reserve_exact(1)?;
        pieces.push(piece)?;
        return Ok(());
    }
    let at = make_way(pieces, key.as_slice())?;
    pieces[at].insert(key, link)?;
    Ok(())
}

/// Gives a key that is held another link. Takes no memory.
pub(crate) fn set(pieces: &mut Vec<Piece>, key: &[u8], link: Cid)
    requires pieces { ArePieces pieces.old.items }
    requires held { is_some (value_at key.now (flatten pieces.old.items)) ≡ true }
    ensures put { flatten pieces.new.items ≡ put key.now (Some link) (flatten pieces.old.items) }
    ensures pieces { ArePieces pieces.new.items }
{
    let at = place_of(pieces.as_slice(), key);
    pieces[at].set(key, link);
}

/// Takes a key out that is held. A piece of this key alone goes. Takes no memory.
pub(crate) fn remove(pieces: &mut Vec<Piece>, key: &[u8])
    requires pieces { ArePieces pieces.old.items }
    requires held { is_some (value_at key.now (flatten pieces.old.items)) ≡ true }
    ensures put { flatten pieces.new.items ≡ put key.now None (flatten pieces.old.items) }
    ensures pieces { ArePieces pieces.new.items }
{
    let at = place_of(pieces.as_slice(), key);
    if pieces[at].len() == 1 {
        pieces.remove(at);
    } else {
        pieces[at].remove(key);
    }
}

/// The pieces of a map that stands in one list.
pub(crate) fn cut(alloc: Global, entries: &[Item]) -> Result<Vec<Piece>, Memory>
    requires ascends { Ascends entries.now }
    requires whole { KeysOnly entries.now }
    ensures map { IfOk result (λ pieces. flatten pieces.items ≡ entries.now) }
    ensures pieces { IfOk result (λ pieces. ArePieces pieces.items) }
{
    let mut pieces = Vec::new(alloc);
    let mut rest = entries;
    while !rest.is_empty() {
        let (front, others) = rest.split_at(rest.len().min(MOST_ENTRIES / 2));
        pieces.push(Piece::copied(alloc, front)?)?;
        rest = others;
    }
    Ok(pieces)
}
