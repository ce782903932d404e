//! Values, and the lists and maps in them.

use crate::lookup::replace_in;
use at_cid::{Cid, Memory, Octets, Words, compare};
use std::alloc::Global;
use std::marker::Model;

/// A value of DAG-CBOR: the IPLD data model without floats.
#[cycle(value)]
#[derive(Debug, Drop)]
pub enum Value {
    /// A whole number of 64 bits with a sign.
    Int(i64),
    /// A string of bytes.
    Bytes(Octets),
    /// A text in UTF-8.
    Text(Words),
    /// Values in order.
    List(Values),
    /// Values under texts.
    Map(Fields),
    /// The link of a block.
    Link(Cid),
    /// True or false.
    Bool(bool),
    /// No value.
    Null,
}

/// Values in order.
#[cycle(value)]
#[derive(Debug, Drop)]
pub struct Values {
    values: Vec<Value>,
}

impl Model for Values {
    ghost use Rattle.std.specs.Prelude.{List, map};
    ghost use Rattle.std.specs.Coded.{coded_list};
    ghost use Rattle.at_cbor.specs.Item.{Item, list_size};
    ghost use Rattle.at_cbor.specs.ItemCode.{coded_item};

    ghost Value = { List Item };

    ghost coded = { coded_list coded_item };

    ghost use Rattle.at_cbor.specs.View.{item_of};

    ghost view = { λ a. map item_of a.values.items };

    ghost size = { list_size };

    ghost use Rattle.at_cbor.specs.Falls.{values_fall};
    ghost use Rattle.std.proofs.Common.{arith};

    ghost size_decreases = { λ a h. omega (arith, values_fall a.values.items) };
}

/// The fields of a map: each key once, a shorter key first, and keys of one length in the order of their bytes.
#[cycle(value)]
#[derive(Debug, Drop)]
pub struct Fields {
    fields: Vec<(Words, Value)>,
}

impl Model for Fields {
    ghost use Rattle.std.specs.Prelude.{◌≡◌, List, ℕ, map, true, None};
    ghost use Rattle.std.specs.Coded.{coded_list, coded×, coded_ℕ};
    ghost use Rattle.at_cbor.specs.Item.{Item, pairs_size, are_ascending};
    ghost use Rattle.at_cbor.specs.ItemCode.{coded_item};

    ghost Value = { List (List ℕ × Item) };

    ghost coded = { coded_list (coded× (coded_list coded_ℕ) coded_item) };

    ghost use Rattle.at_cbor.specs.View.{pair_of};

    ghost view = { λ a. map pair_of a.fields.items };

    ghost invariant = { λ a. are_ascending None (map pair_of a.fields.items) ≡ true };

    ghost size = { pairs_size };

    ghost use Rattle.at_cbor.specs.Falls.{fields_fall};
    ghost use Rattle.std.proofs.Common.{arith};

    ghost size_decreases = { λ a h. omega (arith, fields_fall a.fields.items) };
}

/// Room for so few is made at once.
const FEW: usize = 4;

// How many more to make room for where `count` are there, there is room for `room`, and there are to be `most` in the end.
// As many again as are there, so that a number that an input claims costs no more than what it holds, and never more than
// are to come.
fn room_for(count: usize, room: usize, most: u64) -> usize {
    if count < room {
        0
    } else {
        count.max(FEW).min((most as usize).saturating_sub(count))
    }
}

impl Values {
    ghost use Rattle.std.specs.Prelude.{◌≡◌, ◌==◌, ◌∷◌, ◌++◌, [], length, map, slice_get, option_map, OnOk, OnErr};
    ghost use Rattle.at_cbor.specs.View.{item_of};

    /// No values.
    pub fn new(alloc: Global) -> Values
        ensures { result ≡ [] }
    {
        Values {
            values: Vec::new(alloc),
        }
    }

    /// How many there are.
    pub fn len(&self) -> usize
        ensures { result ≡ length self.now }
    {
        self.values.len()
    }

    /// Whether there are none.
    pub fn is_empty(&self) -> bool
        ensures { result ≡ (length self.now == 0) }
    {
        self.values.is_empty()
    }

    /// The value at a place, counted from 0.
    pub fn get(&self, place: usize) -> Option<&Value>
        ensures { option_map (λ value. item_of value.now) result ≡ slice_get self.now place }
    {
        self.values.get(place)
    }

    /// The values.
    pub fn as_slice(&self) -> &[Value]
        ensures { map item_of result.now ≡ self.now }
    {
        self.values.as_slice()
    }

    /// Makes room for one more value at least, of `most` that there are to be in the end.
    pub(crate) fn make_room(&mut self, most: u64) -> Result<(), Memory>
        ensures { self.new ≡ self.old }
    {
        let more = room_for(self.values.len(), self.values.capacity(), most);
        self.values.reserve_exact(more)?;
        Ok(())
    }

    /// Adds a value behind the others.
    pub fn push(&mut self, value: Value) -> Result<(), Memory>
        ensures ok { OnOk result (self.new ≡ self.old ++ item_of value ∷ []) }
        ensures err { OnErr result (self.new ≡ self.old) }
    {
        self.values.push(value)?;
        Ok(())
    }
}

impl Fields {
    ghost use Rattle.std.specs.Prelude.{◌≡◌, ◌==◌, ◌∷◌, ◌++◌, [], true, None, length, map, slice_get, option_map, OnOk, OnErr};
    ghost use Rattle.at_cbor.specs.Item.{fields_of, last_key, is_above, are_ascending};
    ghost use Rattle.at_cbor.specs.Kinds.{value_of, value_put};
    ghost use Rattle.at_cbor.specs.View.{item_of, pair_of};

    /// No fields.
    pub fn new(alloc: Global) -> Fields
        ensures { result ≡ [] }
    {
        Fields {
            fields: Vec::new(alloc),
        }
    }

    /// How many there are.
    pub fn len(&self) -> usize
        ensures { result ≡ length self.now }
    {
        self.fields.len()
    }

    /// Whether there are none.
    pub fn is_empty(&self) -> bool
        ensures { result ≡ (length self.now == 0) }
    {
        self.fields.is_empty()
    }

    /// The key and the value at a place, counted from 0.
    pub fn get(&self, place: usize) -> Option<&(Words, Value)>
        ensures { option_map (λ pair. pair_of pair.now) result ≡ slice_get self.now place }
    {
        self.fields.get(place)
    }

    /// The keys and values.
    pub fn as_slice(&self) -> &[(Words, Value)]
        ensures value { map pair_of result.now ≡ self.now }
        ensures ascending { are_ascending None self.now ≡ true }
    {
        self.fields.as_slice()
    }

    /// The last key.
    pub fn last_key(&self) -> Option<&Words>
        ensures { option_map (λ key. key.now) result ≡ last_key self.now }
    {
        match self.fields.last() {
            Some((key, _)) => Some(key),
            None => None,
        }
    }

    /// Whether this key may come next: it is above the last one.
    pub fn admits(&self, key: &Words) -> bool
        ensures { result ≡ is_above (last_key self.now) key.now }
    {
        let Some(last) = self.last_key() else {
            return true;
        };
        comes_after(last, key)
    }

    /// Makes room for one more field at least, of `most` that there are to be in the end.
    pub(crate) fn make_room(&mut self, most: u64) -> Result<(), Memory>
        ensures { self.new ≡ self.old }
    {
        let more = room_for(self.fields.len(), self.fields.capacity(), most);
        self.fields.reserve_exact(more)?;
        Ok(())
    }

    /// Adds a field behind the others.
    pub fn push(&mut self, key: Words, value: Value) -> Result<(), Memory>
        requires { is_above (last_key self.old) key ≡ true }
        ensures ok { OnOk result (self.new ≡ self.old ++ (key, item_of value) ∷ []) }
        ensures err { OnErr result (self.new ≡ self.old) }
    {
        self.fields.push((key, value))?;
        Ok(())
    }

    /// Puts a value in the place of a key's, where it is there, and gives the one that it had. Takes no memory.
    pub fn replace(&mut self, name: &str, value: Value) -> Option<Value>
        ensures taken { option_map item_of result ≡ value_of (fields_of self.old) name.now }
        ensures put { fields_of self.new ≡ value_put name.now (item_of value) (fields_of self.old) }
    {
        replace_in(&mut self.fields, name, value)
    }
}

ghost use Rattle.std.specs.Prelude.{◌≡◌, Some};
ghost use Rattle.at_cbor.specs.Item.{is_above};

// Whether a key is longer than the one before it, or as long and above it byte by byte.
fn comes_after(before: &Words, key: &Words) -> bool
    ensures { result ≡ is_above (Some before.now) key.now }
{
    before.len() < key.len()
        || before.len() == key.len() && compare(before.as_bytes(), key.as_bytes()).is_lt()
}
