//! A list with holes.

ghost use Rattle.std.specs.Prelude.{◌≡◌, ◌∷◌, ◌++◌, [], length, ◌==◌, slice_get, option_map, OnOk, OnErr, IfOk};
ghost use Rattle.mst_list.specs.Lists.{IsFormed, AreFormed};

use crate::item::Item;
use at_cid::Memory;
use std::alloc::Global;
use std::marker::Model;

/// Keys, and holes between them. A key has 1 to [`MOST_KEY_BYTES`](crate::MOST_KEY_BYTES) bytes, and the link of a hole is of kind Node.
#[derive(Debug, Drop)]
pub struct ItemList {
    pub(crate) items: Vec<Item>,
}

impl Model for ItemList {
    ghost use Rattle.std.specs.Prelude.{List};
    ghost use Rattle.mst_list.specs.declared.item.Item.{Item};
    ghost use Rattle.mst_list.specs.Lists.{AreFormed};

    ghost Value = { List Item };

    ghost view = { λ a. a.items.items };

    ghost invariant = { λ a. AreFormed a.items.items };
}

impl ItemList {
    /// No items. Takes no memory.
    pub fn new(alloc: Global) -> ItemList
        ensures { result ≡ [] }
    {
        ItemList {
            items: Vec::new(alloc),
        }
    }

    /// The items.
    pub fn as_slice(&self) -> &[Item]
        ensures value { result.now ≡ self.now }
        ensures formed { AreFormed self.now }
    {
        self.items.as_slice()
    }

    /// How many items there are.
    pub fn len(&self) -> usize
        ensures { result ≡ length self.now }
    {
        self.items.len()
    }

    /// Whether there are none.
    pub fn is_empty(&self) -> bool
        ensures { result ≡ (length self.now == 0) }
    {
        self.items.is_empty()
    }

    /// The item at a place, counted from 0.
    pub fn get(&self, i: usize) -> Option<&Item>
        ensures { option_map (λ item. item.now) result ≡ slice_get self.now i }
    {
        self.items.get(i)
    }

    /// Adds an item at the end. `Item::is_formed` tests the condition. After [`Memory`] the list is as it was.
    pub fn push(&mut self, item: Item) -> Result<(), Memory>
        requires { IsFormed item }
        ensures ok { OnOk result (self.new ≡ self.old ++ item ∷ []) }
        ensures err { OnErr result (self.new ≡ self.old) }
    {
        self.items.push(item)?;
        Ok(())
    }

    /// Gives back the memory that no item takes, where that can be done. The items stay.
    pub fn shrink_to_fit(&mut self)
        ensures { self.new ≡ self.old }
    {
        self.items.shrink_to_fit();
    }

    /// The same items once more.
    pub fn try_clone(&self, alloc: Global) -> Result<ItemList, Memory>
        ensures { IfOk result (λ made. made ≡ self.now) }
    {
        let items = copy_items(alloc, self.items.as_slice())?;
        Ok(ItemList { items })
    }
}

pub(crate) fn copy_items(alloc: Global, items: &[Item]) -> Result<Vec<Item>, Memory>
    ensures { IfOk result (λ copied. copied.items ≡ items.now) }
{
    let mut copied = Vec::new(alloc);
    for item in items {
        copied.push(item.try_clone()?)?;
    }
    Ok(copied)
}
