//! Fields of a map that may be null or absent.

ghost use Rattle.std.specs.Prelude.{◌≡◌, option_map};
ghost use Rattle.at_cbor.specs.Kinds.{link_in};
ghost use Rattle.at_cbor.specs.View.{item_of};
ghost use Rattle.at_form.specs.Forms.{tid_in, node_in, present_value, optional};

use crate::forms::{node, tid};
use at_cbor::{Value, field};
use at_cid::Cid;
use at_syntax::Tid;

/// The value of a key, unless it is null.
#[tactic(auto, unfolding(crate::specs::Forms::present_value))]
pub fn given<'a>(fields: &'a Value, name: &str) -> Option<&'a Value>
    ensures { option_map (λ value. item_of value.now) result
        ≡ present_value (item_of fields.now) name.now }
{
    match field(fields, name) {
        Some(value) if value.is_null() => None,
        found => found,
    }
}

/// A TID, or nothing where the key is null or absent. `None` where another form is there.
pub fn optional_tid(fields: &Value, name: &str) -> Option<Option<Tid>>
    ensures { result ≡ optional tid_in (item_of fields.now) name.now }
{
    let Some(value) = given(fields, name) else {
        return Some(None);
    };
    Some(Some(tid(value)?))
}

/// A link, or nothing where the key is null or absent. `None` where another form is there.
pub fn optional_link(fields: &Value, name: &str) -> Option<Option<Cid>>
    ensures { result ≡ optional link_in (item_of fields.now) name.now }
{
    let Some(value) = given(fields, name) else {
        return Some(None);
    };
    Some(Some(value.as_link()?))
}

/// A link of kind Node, or nothing where the key is null or absent. `None` where another form is there.
pub fn optional_node(fields: &Value, name: &str) -> Option<Option<Cid>>
    ensures { result ≡ optional node_in (item_of fields.now) name.now }
{
    let Some(value) = given(fields, name) else {
        return Some(None);
    };
    Some(Some(node(value)?))
}
