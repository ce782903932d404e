//! A piece of a map.

ghost use Rattle.std.specs.Prelude.{◌≡◌, ◌<◌, ◌≤◌, ◌∷◌, ◌++◌, [], length, remove, is_some, true, Some, None, IfNone, IfOk, IfSome, OnOk, OnErr};
ghost use Rattle.mst_list.specs.Edits.{put, value_at};
ghost use Rattle.mst_list.specs.Lists.{Ascends, KeysOnly};
ghost use Rattle.mst_list.specs.declared.item.Item as item;
ghost use Rattle.whole_map.specs.Pieces.{begins_by, with_link};

use crate::searching::find;
use at_cid::{Cid, Memory, compare};
use mst_list::{Item, KeyBytes};
use std::alloc::Global;
use std::marker::Model;

/// The most entries of a piece that takes one more.
pub(crate) const MOST_ENTRIES: usize = 128;

/// Some entries of a map that follow one another, each a key with the link of its record.
#[derive(Debug, Drop)]
pub struct Piece {
    items: Vec<Item>,
}

impl Model for Piece {
    ghost use Rattle.std.specs.Prelude.{List};
    ghost use Rattle.mst_list.specs.declared.item.Item.{Item};
    ghost use Rattle.whole_map.specs.Pieces.{IsPiece};

    ghost Value = { List Item };

    ghost view = { λ a. a.items.items };

    ghost invariant = { λ a. IsPiece a.items.items };
}

impl Piece {
    /// A piece of one entry.
    pub(crate) fn new(alloc: Global, key: KeyBytes, link: Cid) -> Result<Piece, Memory>
        ensures { IfOk result (λ piece. piece ≡ item.Item.Key key link ∷ []) }
    {
        let mut items = Vec::new(alloc);
        items.push(Item::Key(key, link))?;
        Ok(Piece { items })
    }

    /// A piece of entries that stand elsewhere.
    pub(crate) fn copied(alloc: Global, entries: &[Item]) -> Result<Piece, Memory>
        requires some { 0 < length entries.now }
        requires ascends { Ascends entries.now }
        requires whole { KeysOnly entries.now }
        ensures { IfOk result (λ piece. piece ≡ entries.now) }
    {
        let items = copied(alloc, entries)?;
        Ok(Piece { items })
    }

    /// The entries.
    pub fn as_slice(&self) -> &[Item]
        ensures { result.now ≡ self.now }
    {
        self.items.as_slice()
    }

    /// How many entries there are.
    pub(crate) fn len(&self) -> usize
        ensures { result ≡ length self.now }
    {
        self.items.len()
    }

    /// Whether it begins with this key or with one below it.
    pub(crate) fn begins_by(&self, key: &[u8]) -> bool
        ensures { result ≡ begins_by key.now self.now }
    {
        match self.items.as_slice() {
            [Item::Key(first, _), ..] => compare(first.as_slice(), key).is_le(),
            _ => false,
        }
    }

    /// The link of a key.
    pub(crate) fn value_of(&self, key: &[u8]) -> Option<Cid>
        ensures { result ≡ value_at key.now self.now }
    {
        match find(self.items.as_slice(), key) {
            Ok(at) => match &self.items[at] {
                Item::Key(_, link) => Some(*link),
                Item::Hole(..) => None,
            },
            Err(_) => None,
        }
    }

    /// Puts an entry in its place. Where there is no room, the piece grows by a sixteenth, since a mirror holds many maps.
    pub(crate) fn insert(&mut self, key: KeyBytes, link: Cid) -> Result<(), Memory>
        requires { value_at key self.old ≡ None }
        ensures put { OnOk result (self.new ≡ put key (Some link) self.old) }
        ensures same { OnErr result (self.new ≡ self.old) }
    {
        make_room(&mut self.items)?;
        if let Err(at) = find(self.items.as_slice(), key.as_slice()) {
            self.items.insert(at, Item::Key(key, link))?;
        }
        Ok(())
    }

    /// Gives a key that is held another link. Takes no memory.
    pub(crate) fn set(&mut self, key: &[u8], link: Cid)
        requires { is_some (value_at key.now self.old) ≡ true }
        ensures { self.new ≡ put key.now (Some link) self.old }
    {
        if let Ok(at) = find(self.items.as_slice(), key) {
            set_link(&mut self.items[at], link);
        }
    }

    /// Takes a key out that is held, where another one is left. Takes no memory.
    pub(crate) fn remove(&mut self, key: &[u8])
        requires held { is_some (value_at key.now self.old) ≡ true }
        requires others { 1 < length self.old }
        ensures { self.new ≡ put key.now None self.old }
    {
        if let Ok(at) = find(self.items.as_slice(), key) {
            take_out(&mut self.items, at);
        }
    }

    /// Cuts the upper half off, where the piece is full. After [`Memory`] it is as it was.
    pub(crate) fn split_full(&mut self) -> Result<Option<Piece>, Memory>
        ensures halves { IfOk result (λ cut. IfSome cut (λ upper. self.old ≡ self.new ++ upper)) }
        ensures some { IfOk result
            (λ cut. IfSome cut (λ upper. (0 < length self.new) × (0 < length upper))) }
        ensures whole { IfOk result (λ cut. IfNone cut (self.new ≡ self.old)) }
        ensures same { OnErr result (self.new ≡ self.old) }
    {
        if self.items.len() < MOST_ENTRIES {
            return Ok(None);
        }
        let items = self.items.split_off(self.items.len() / 2)?;
        self.items.shrink_to_fit();
        Ok(Some(Piece { items }))
    }
}

// Takes the item at a place out, and gives room back that is more than half empty.
fn take_out(items: &mut Vec<Item>, at: usize)
    requires { at < length items.old.items }
    ensures { items.new.items ≡ remove items.old.items at }
{
    items.remove(at);
    if items.len() < items.capacity() / 2 {
        items.shrink_to_fit();
    }
}

// Gives the key of an item another link.
fn set_link(item: &mut Item, link: Cid)
    ensures { item.new ≡ with_link item.old link }
{
    if let Item::Key(_, held) = item {
        *held = link;
    }
}

// Room for one more item.
fn make_room(items: &mut Vec<Item>) -> Result<(), Memory>
    ensures { items.new.items ≡ items.old.items }
{
    if items.len() == items.capacity() {
        items.reserve_exact(1 + items.len() / 16)?;
    }
    Ok(())
}

fn copied(alloc: Global, entries: &[Item]) -> Result<Vec<Item>, Memory>
    ensures { IfOk result (λ items. items.items ≡ entries.now) }
{
    let mut items = Vec::with_capacity(alloc, entries.len())?;
    for entry in entries {
        items.push(entry.try_clone()?)?;
    }
    Ok(items)
}
