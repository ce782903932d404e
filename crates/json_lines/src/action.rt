//! The actions of operations.

ghost use Rattle.std.specs.Prelude.{◌≡◌, codes, option_map, option_and_then};
ghost use Rattle.at_cbor.specs.Kinds.{field_of};
ghost use Rattle.at_cbor.specs.View.{item_of};
ghost use Rattle.json_lines.specs.Lines.{action_at, action_text, list_item, text_of_item};

use at_cbor::{Value, field};
use at_event::{Action, Event};

// The operations of a payload.
#[tactic(auto, using(at_event::proofs::Blocks::ops_kept))]
fn ops_in(event: &Event) -> Option<&Value>
    ensures { option_map (λ value. item_of value.now) result
        ≡ field_of event.now.payload (codes "ops") }
{
    field(&event.rest, "ops")
}

// The item of a list at a place.
#[tactic(auto, using(at_cbor::proofs::Parts::items_same))]
fn item_at(list: Option<&Value>, place: usize) -> Option<&Value>
    ensures { option_map (λ value. item_of value.now) result
        ≡ list_item (option_map (λ value. item_of value.now) list.entry) place }
{
    match list {
        Some(Value::List(items)) => items.get(place),
        _ => None,
    }
}

// The text of an item, or the empty one where it isn't one.
fn text_of_item(item: Option<&Value>) -> &str
    ensures { result.now ≡ text_of_item (option_map (λ value. item_of value.now) item.entry) }
{
    match item {
        Some(Value::Text(text)) => text.as_str(),
        _ => "",
    }
}

// The action of an operation.
fn action_in(op: Option<&Value>) -> Option<&Value>
    ensures { option_map (λ value. item_of value.now) result
        ≡ option_and_then (λ op. field_of op (codes "action"))
        (option_map (λ value. item_of value.now) op.entry) }
{
    match op {
        Some(op) => field(op, "action"),
        None => None,
    }
}

// The text of the action of the operation at a place, as the payload has it.
fn action_at(event: &Event, place: usize) -> &str
    ensures { result.now ≡ action_at event.now.payload place }
{
    text_of_item(action_in(item_at(ops_in(event), place)))
}

/// The action of an operation, in one word; one that the Lexicon doesn't know as it came.
pub(crate) fn action_text(event: &Event, place: usize, action: Action) -> &str
    ensures { result.now ≡ action_text action (action_at event.now.payload place) }
{
    match action {
        Action::Create => "create",
        Action::Update => "update",
        Action::Delete => "delete",
        Action::Other => action_at(event, place),
    }
}
