//! Finding a key among the entries of a map, whose keys ascend.

ghost use Rattle.std.specs.Prelude.{◌≡◌};
ghost use Rattle.mst_list.specs.Lists.{Ascends, KeysOnly};
ghost use Rattle.mst_list.specs.Maps.{IsFound, order_of};

use at_cid::compare;
use mst_list::Item;
use std::cmp::Ordering;

// How an item's key compares with a key. A map has no holes.
fn order_of(item: &Item, key: &[u8]) -> Ordering
    ensures { result ≡ order_of key.now item.now }
{
    match item {
        Item::Key(other, _) => compare(other.as_slice(), key),
        Item::Hole(..) => Ordering::Less,
    }
}

/// The place of the item that holds a key, or else the place where it would stand, by a binary search.
pub(crate) fn find(items: &[Item], key: &[u8]) -> Result<usize, usize>
    requires ascends { Ascends items.now }
    requires whole { KeysOnly items.now }
    ensures { IsFound key.now items.now result }
{
    items.binary_search_by(
        |item: &Item| -> Ordering
            ensures { result ≡ order_of key.entry.now item.now }
        { order_of(item, key) },
    )
}
