//! The map of a whole repository.

ghost use Rattle.std.specs.Prelude.{◌≡◌, [], length, is_some, true, Some, None, IfOk, OnOk, OnErr};
ghost use Rattle.mst_list.specs.Edits.{put, value_at};
ghost use Rattle.mst_list.specs.Lists.{Ascends, KeysOnly};
ghost use Rattle.whole_map.specs.Pieces.{flatten};

use crate::piece::Piece;
use crate::pieces::{cut, insert, remove, set, value_of};
use at_cid::{Cid, Memory};
use mst_list::{ItemList, KeyBytes};
use std::alloc::Global;
use std::marker::Model;

/// The map of a whole repository: its keys, each with the link of its record, in order and without holes. A key is found by two
/// binary searches, and one that comes or goes moves one piece.
#[derive(Debug, Drop)]
pub struct WholeMap {
    pieces: Vec<Piece>,
    count: usize,
}

impl Model for WholeMap {
    ghost use Rattle.std.specs.Prelude.{List};
    ghost use Rattle.mst_list.specs.declared.item.Item.{Item};
    ghost use Rattle.whole_map.specs.Pieces.{AreCounted, flatten};

    ghost Value = { List Item };

    ghost view = { λ a. flatten a.pieces.items };

    ghost invariant = { λ a. AreCounted a.pieces.items a.count };
}

impl WholeMap {
    /// No keys. Takes no memory.
    pub fn new(alloc: Global) -> WholeMap
        ensures { result ≡ [] }
    {
        WholeMap {
            pieces: Vec::new(alloc),
            count: 0,
        }
    }

    /// A list that is a map.
    pub fn from_list(alloc: Global, list: &ItemList) -> Result<WholeMap, Memory>
        requires ascends { Ascends list.now }
        requires whole { KeysOnly list.now }
        ensures { IfOk result (λ map. map ≡ list.now) }
    {
        let pieces = cut(alloc, list.as_slice())?;
        Ok(WholeMap {
            pieces,
            count: list.len(),
        })
    }

    /// The keys with their links, in pieces that follow one another.
    pub fn pieces(&self) -> &[Piece]
        ensures map { flatten result.now ≡ self.now }
        ensures ascends { Ascends self.now }
        ensures whole { KeysOnly self.now }
    {
        self.pieces.as_slice()
    }

    /// How many records there are.
    pub fn len(&self) -> usize
        ensures { result ≡ length self.now }
    {
        self.count
    }

    /// The link of a key.
    pub fn value_of(&self, key: &[u8]) -> Option<Cid>
        ensures { result ≡ value_at key.now self.now }
    {
        value_of(self.pieces.as_slice(), key)
    }

    // Puts an entry in its place.
    pub(crate) fn insert(&mut self, key: KeyBytes, link: Cid) -> Result<(), Memory>
        requires { value_at key self.old ≡ None }
        ensures put { OnOk result (self.new ≡ put key (Some link) self.old) }
        ensures same { OnErr result (self.new ≡ self.old) }
    {
        // No map that memory holds has so many.
        let Some(count) = self.count.checked_add(1) else {
            return Err(Memory);
        };
        insert(&mut self.pieces, key, link)?;
        self.count = count;
        Ok(())
    }

    // Gives a key that is held another link. Takes no memory.
    pub(crate) fn set(&mut self, key: &[u8], link: Cid)
        requires { is_some (value_at key.now self.old) ≡ true }
        ensures { self.new ≡ put key.now (Some link) self.old }
    {
        set(&mut self.pieces, key, link);
    }

    // Takes a key out that is held. Takes no memory.
    pub(crate) fn remove(&mut self, key: &[u8])
        requires { is_some (value_at key.now self.old) ≡ true }
        ensures { self.new ≡ put key.now None self.old }
    {
        remove(&mut self.pieces, key);
        self.count -= 1;
    }
}
