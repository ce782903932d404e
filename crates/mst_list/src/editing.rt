//! The one edit of playing and undoing.

ghost use Rattle.std.specs.Prelude.{◌≡◌, OnOk};
ghost use Rattle.mst_list.specs.Edits.{put};

use crate::item::Item;
use crate::key_bytes::KeyBytes;
use crate::scanning::{place_of, value_of};
use at_cid::{Cid, Memory, Octets};

/// Gives a key the value, or takes the key out.
pub fn put(items: &mut Vec<Item>, key: &Octets, value: Option<Cid>) -> Result<(), Memory>
    ensures { OnOk result (items.new.items ≡ put key.now value items.old.items) }
{
    let at = place_of(items.as_slice(), key.as_slice());
    let visible = value_of(items.as_slice(), key.as_slice()).is_some();
    match value {
        Some(value) => {
            let item = Item::Key(KeyBytes::of(key)?, value);
            if visible {
                items[at] = item;
            } else {
                items.insert(at, item)?;
            }
        }
        None => {
            if visible {
                items.remove(at);
            }
        }
    }
    Ok(())
}
