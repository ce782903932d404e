//! Values that are the same.

ghost use Rattle.std.specs.Prelude.{◌≡◌, map};
ghost use Rattle.std.specs.Cmp.{on_per, on_equiv, partial_equiv_from_equiv};
ghost use Rattle.at_cbor.specs.Equal.{item_eq, items_eq, fields_eq};
ghost use Rattle.at_cbor.specs.Item.{items_of, fields_of};
ghost use Rattle.at_cbor.specs.View.{item_of, pair_of};
ghost use Rattle.at_cbor.specs.EqualLaws.{item_eq_equiv};

use crate::value::Value;
use at_cid::Words;

impl PartialEq for Value {
    ghost eq = { λ a b. item_eq (item_of a) (item_of b) };

    ghost laws = { on_per item_of (partial_equiv_from_equiv item_eq_equiv) };

    fn eq(&self, other: &Value) -> bool {
        equal_value(self, other)
    }
}

impl Eq for Value {
    ghost laws = { on_equiv item_of item_eq_equiv };
}

#[cycle(equal)]
fn equal_value(left: &Value, right: &Value) -> bool
    ensures { result ≡ item_eq (item_of left.now) (item_of right.now) }
{
    match left {
        Value::Int(number) => match right {
            Value::Int(other) => number == other,
            _ => false,
        },
        Value::Bytes(bytes) => match right {
            Value::Bytes(other) => bytes.as_slice() == other.as_slice(),
            _ => false,
        },
        Value::Text(text) => match right {
            Value::Text(other) => text.as_bytes() == other.as_bytes(),
            _ => false,
        },
        Value::List(values) => match right {
            Value::List(others) => equal_values(values.as_slice(), others.as_slice()),
            _ => false,
        },
        Value::Map(fields) => match right {
            Value::Map(others) => equal_fields(fields.as_slice(), others.as_slice()),
            _ => false,
        },
        Value::Link(link) => match right {
            Value::Link(other) => link.as_bytes() == other.as_bytes(),
            _ => false,
        },
        Value::Bool(truth) => match right {
            Value::Bool(other) => truth == other,
            _ => false,
        },
        Value::Null => right.is_null(),
    }
}

#[cycle(equal)]
fn equal_values(left: &[Value], right: &[Value]) -> bool
    ensures { result ≡ items_eq (items_of (map item_of left.now))
        (items_of (map item_of right.now)) }
{
    if left.len() != right.len() {
        return false;
    }
    'values: for place in 0..left.len() {
        if !equal_value(&left[place], &right[place]) {
            return false;
        }
    }
    true
}

#[cycle(equal)]
fn equal_fields(left: &[(Words, Value)], right: &[(Words, Value)]) -> bool
    ensures { result ≡ fields_eq (fields_of (map pair_of left.now))
        (fields_of (map pair_of right.now)) }
{
    if left.len() != right.len() {
        return false;
    }
    'fields: for place in 0..left.len() {
        let (key, value) = &left[place];
        let (other_key, other) = &right[place];
        if key.as_bytes() != other_key.as_bytes() || !equal_value(value, other) {
            return false;
        }
    }
    true
}
