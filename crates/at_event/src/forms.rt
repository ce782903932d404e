//! Fields of a map, each in its form.

ghost use Rattle.std.specs.Prelude.{◌≡◌};
ghost use Rattle.at_cbor.specs.Kinds.{text_in, list_in, link_in, bool_in, field_of};
ghost use Rattle.at_cbor.specs.View.{item_of};
ghost use Rattle.at_form.specs.Forms.{did_in, tid_in, short_text_in, node_in, optional, required};
ghost use Rattle.at_event.specs.Flaws.{Reads};

use crate::flaw::Flaw;
use at_cbor::{Value, Values, field};
use at_cid::{Cid, Words};
use at_form::given;
use at_syntax::Tid;

/// The value of a key.
pub fn required<'a>(fields: &'a Value, name: &str) -> Result<&'a Value, Flaw>
    ensures { Reads (λ value. item_of value.now) result (field_of (item_of fields.now) name.now) }
{
    field(fields, name).ok_or(Flaw::BadField)
}

/// A text.
pub fn text(value: &Value) -> Result<&Words, Flaw>
    ensures { Reads (λ text. text.now) result (text_in (item_of value.now)) }
{
    value.as_text().ok_or(Flaw::BadField)
}

/// A text that is a DID.
pub fn did(value: &Value) -> Result<&Words, Flaw>
    ensures { Reads (λ text. text.now) result (did_in (item_of value.now)) }
{
    at_form::did(value).ok_or(Flaw::BadField)
}

/// A text that is a TID.
pub fn tid(value: &Value) -> Result<Tid, Flaw>
    ensures { Reads (λ tid. tid) result (tid_in (item_of value.now)) }
{
    at_form::tid(value).ok_or(Flaw::BadField)
}

/// A text of at most 64 bytes.
pub fn short_text(value: &Value) -> Result<&Words, Flaw>
    ensures { Reads (λ text. text.now) result (short_text_in (item_of value.now)) }
{
    at_form::short_text(value).ok_or(Flaw::BadField)
}

/// A link of kind Node.
pub fn node(value: &Value) -> Result<Cid, Flaw>
    ensures { Reads (λ link. link) result (node_in (item_of value.now)) }
{
    at_form::node(value).ok_or(Flaw::BadField)
}

/// A list.
pub fn list(value: &Value) -> Result<&Values, Flaw>
    ensures { Reads (λ values. values.now) result (list_in (item_of value.now)) }
{
    value.as_list().ok_or(Flaw::BadField)
}

/// True or false.
pub fn truth(value: &Value) -> Result<bool, Flaw>
    ensures { Reads (λ truth. truth) result (bool_in (item_of value.now)) }
{
    value.as_bool().ok_or(Flaw::BadField)
}

/// A copy of a DID.
pub fn required_did(fields: &Value, name: &str) -> Result<Words, Flaw>
    ensures { Reads (λ text. text) result (required did_in (item_of fields.now) name.now) }
{
    Ok(did(required(fields, name)?)?.try_clone()?)
}

/// A copy of a text of at most 64 bytes.
pub fn required_short_text(fields: &Value, name: &str) -> Result<Words, Flaw>
    ensures { Reads (λ text. text) result (required short_text_in (item_of fields.now) name.now) }
{
    Ok(short_text(required(fields, name)?)?.try_clone()?)
}

/// A TID, or nothing where the key is null or absent.
pub fn optional_tid(fields: &Value, name: &str) -> Result<Option<Tid>, Flaw>
    ensures { Reads (λ found. found) result (optional tid_in (item_of fields.now) name.now) }
{
    at_form::optional_tid(fields, name).ok_or(Flaw::BadField)
}

/// A link, or nothing where the key is null or absent.
pub fn optional_link(fields: &Value, name: &str) -> Result<Option<Cid>, Flaw>
    ensures { Reads (λ found. found) result (optional link_in (item_of fields.now) name.now) }
{
    at_form::optional_link(fields, name).ok_or(Flaw::BadField)
}

/// A link of kind Node, or nothing where the key is null or absent.
pub fn optional_node(fields: &Value, name: &str) -> Result<Option<Cid>, Flaw>
    ensures { Reads (λ found. found) result (optional node_in (item_of fields.now) name.now) }
{
    at_form::optional_node(fields, name).ok_or(Flaw::BadField)
}

/// A copy of a text of at most 64 bytes, or nothing where the key is null or absent.
pub fn optional_short_text(fields: &Value, name: &str) -> Result<Option<Words>, Flaw>
    ensures { Reads (λ found. found) result (optional short_text_in (item_of fields.now) name.now) }
{
    match given(fields, name) {
        Some(value) => Ok(Some(short_text(value)?.try_clone()?)),
        None => Ok(None),
    }
}
