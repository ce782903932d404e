//! Copies of values.

ghost use Rattle.std.specs.Prelude.{◌≡◌, IfOk, map, true, None};
ghost use Rattle.at_cbor.specs.Item.{are_ascending};
ghost use Rattle.at_cbor.specs.View.{item_of, pair_of};

use crate::value::{Fields, Value, Values};
use at_cid::{Memory, Words};
use std::alloc::Global;

impl Value {
    /// A copy, with its own memory.
    pub fn try_clone(&self, alloc: Global) -> Result<Value, Memory>
        ensures { IfOk result (λ made. item_of made ≡ item_of self.now) }
    {
        copy_value(alloc, self)
    }
}

#[cycle(copy)]
fn copy_value(alloc: Global, value: &Value) -> Result<Value, Memory>
    ensures { IfOk result (λ made. item_of made ≡ item_of value.now) }
{
    match value {
        Value::Int(number) => Ok(Value::Int(*number)),
        Value::Bytes(bytes) => Ok(Value::Bytes(bytes.try_clone()?)),
        Value::Text(text) => Ok(Value::Text(text.try_clone()?)),
        Value::List(values) => Ok(Value::List(copy_values(alloc, values.as_slice())?)),
        Value::Map(fields) => Ok(Value::Map(copy_fields(alloc, fields.as_slice())?)),
        Value::Link(link) => Ok(Value::Link(*link)),
        Value::Bool(truth) => Ok(Value::Bool(*truth)),
        Value::Null => Ok(Value::Null),
    }
}

#[cycle(copy)]
fn copy_values(alloc: Global, values: &[Value]) -> Result<Values, Memory>
    ensures { IfOk result (λ made. made ≡ map item_of values.now) }
{
    let mut made = Values::new(alloc);
    for value in values {
        made.push(copy_value(alloc, value)?)?;
    }
    Ok(made)
}

#[cycle(copy)]
fn copy_fields(alloc: Global, fields: &[(Words, Value)]) -> Result<Fields, Memory>
    requires { are_ascending None (map pair_of fields.now) ≡ true }
    ensures { IfOk result (λ made. made ≡ map pair_of fields.now) }
{
    let mut made = Fields::new(alloc);
    for (key, value) in fields {
        made.push(key.try_clone()?, copy_value(alloc, value)?)?;
    }
    Ok(made)
}
