//! The items of a map with their heights.

ghost use Rattle.std.specs.Prelude.{◌≡◌, ◌≤◌, ◌++◌, OnOk, IfOk};
ghost use Rattle.mst_list.specs.declared.limits.TheConstants.{MOST_HEIGHT};
ghost use Rattle.mirror.specs.Placed.{item_height};

use at_cid::Memory;
use mst_list::{Item, height};
use std::alloc::Global;
use std::marker::Model;
use whole_map::{Piece, WholeMap};

/// An item with the height of its key, which is hashed once.
#[derive(Drop)]
pub(crate) struct Placed<'a> {
    item: &'a Item,
    height: u8,
}

impl<'a> Model for Placed<'a> {
    ghost use Rattle.std.specs.Prelude.{◌≡◌, ◌≤◌};
    ghost use Rattle.mst_list.specs.declared.item.Item.{Item};
    ghost use Rattle.mst_list.specs.declared.limits.TheConstants.{MOST_HEIGHT};
    ghost use Rattle.mirror.specs.Placed.{item_height};

    ghost Value = { Item };

    ghost view = { λ a. a.item.now };

    ghost invariant = { λ a. (a.height ≡ item_height a.item.now) × (a.height ≤ MOST_HEIGHT) };
}

impl<'a> Placed<'a> {
    fn new(item: &'a Item) -> Placed<'a>
        ensures { result ≡ item.now }
    {
        let height = match item {
            Item::Key(key, _) => height(key.as_slice()),
            Item::Hole(..) => 0,
        };
        Placed { item, height }
    }

    /// The item.
    pub(crate) fn item(&self) -> &'a Item
        ensures { result.now ≡ self.now }
    {
        self.item
    }

    /// The height of its key, and 0 for a hole.
    pub(crate) fn height(&self) -> u8
        ensures value { result ≡ item_height self.now }
        ensures most { result ≤ MOST_HEIGHT }
    {
        self.height
    }
}

fn add_all<'a>(placed: &mut Vec<Placed<'a>>, items: &'a [Item]) -> Result<(), Memory>
    ensures { OnOk result (placed.new.items ≡ placed.old.items ++ items.now) }
{
    for item in items {
        placed.push(Placed::new(item))?;
    }
    Ok(())
}

/// The items of a map, one after another.
pub(crate) fn placed_of(alloc: Global, map: &WholeMap) -> Result<Vec<Placed<'_>>, Memory>
    ensures { IfOk result (λ placed. placed.items ≡ map.now) }
{
    let mut placed = Vec::with_capacity(alloc, map.len())?;
    for piece in map.pieces() {
        add_all(&mut placed, piece.as_slice())?;
    }
    Ok(placed)
}
