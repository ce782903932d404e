//! The members of an object that is put together. An error says that there was no memory for a
//! member.

ghost use Rattle.std.specs.Prelude.{◌≡◌, OnOk, option_map};
ghost use Rattle.serde_json.specs.Data.{string, no_members, put};
ghost use Rattle.serde_json.specs.View.{members_view, view};
ghost use Rattle.json_text.specs.Values.{put_some};

use at_cid::Memory;
use serde_json::{Map, Value, put};
use std::alloc::Global;

/// No members. Takes no memory.
pub fn no_members(alloc: Global) -> Map<String, Value>
    ensures { members_view result.entries ≡ no_members }
{
    Map::new(alloc)
}

/// Puts a member among the others, at its place in the order of the bytes of names.
pub fn put_value(
    alloc: Global,
    members: &mut Map<String, Value>,
    name: &str,
    value: Value,
) -> Result<(), Memory>
    ensures { OnOk result (members_view members.new.entries
        ≡ put name.now (view value) (members_view members.old.entries)) }
{
    put(members, alloc, name, value)?;
    Ok(())
}

/// Puts a string among the other members.
pub fn put_text(
    alloc: Global,
    members: &mut Map<String, Value>,
    name: &str,
    text: &str,
) -> Result<(), Memory>
    ensures { OnOk result (members_view members.new.entries
        ≡ put name.now (string text.now) (members_view members.old.entries)) }
{
    let value = Value::try_from_str(alloc, text)?;
    put_value(alloc, members, name, value)
}

/// Puts a string among the other members, where there is one.
pub fn put_some_text(
    alloc: Global,
    members: &mut Map<String, Value>,
    name: &str,
    text: Option<&str>,
) -> Result<(), Memory>
    ensures { OnOk result (members_view members.new.entries
        ≡ put_some name.now (option_map string (option_map (λ t. t.now) text.entry))
        (members_view members.old.entries)) }
{
    match text {
        Some(text) => put_text(alloc, members, name, text),
        None => Ok(()),
    }
}
