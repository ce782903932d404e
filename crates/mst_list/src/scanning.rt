//! Finding the place of a key.

ghost use Rattle.std.specs.Prelude.{◌≡◌, length, false};
ghost use Rattle.mst_list.specs.Edits.{before, value_at};
ghost use Rattle.mst_list.specs.Faults.{starts_with_hole, clear_behind};

use crate::item::Item;
use at_cid::{Cid, compare};
use std::cmp::Ordering;

/// The value of a key where it is visible.
pub fn value_of(items: &[Item], key: &[u8]) -> Option<Cid>
    ensures { result ≡ value_at key.now items.now }
{
    for item in items {
        if let Item::Key(other, value) = item {
            match compare(other.as_slice(), key) {
                Ordering::Less => {}
                Ordering::Equal => return Some(*value),
                Ordering::Greater => return None,
            }
        }
    }
    None
}

/// How many items stand before the place of a key.
pub fn place_of(items: &[Item], key: &[u8]) -> usize
    ensures { result ≡ length (before key.now items.now) }
{
    for (i, item) in items.iter().enumerate() {
        if let Item::Key(other, _) = item
            && compare(other.as_slice(), key).is_ge()
        {
            return i;
        }
    }
    items.len()
}

fn is_hole_next(items: &[Item]) -> bool
    ensures { result ≡ starts_with_hole items.now }
{
    match items.first() {
        Some(Item::Hole(..)) => true,
        _ => false,
    }
}

/// Whether no hole stands beside the place of a key.
pub fn is_clear(items: &[Item], key: &[u8]) -> bool
    ensures { result ≡ clear_behind false key.now items.now }
{
    let mut behind = false;
    for (i, item) in items.iter().enumerate() {
        match item {
            Item::Hole(..) => behind = true,
            Item::Key(other, _) => match compare(other.as_slice(), key) {
                Ordering::Less => behind = false,
                Ordering::Equal => return !behind && !is_hole_next(&items[i + 1..]),
                Ordering::Greater => return !behind,
            },
        }
    }
    !behind
}
