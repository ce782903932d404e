//! DAG-CBOR put together: single items, and maps and lists that are read and put together anew.

use at_cbor::{
    Fields, Value, Values, decode_whole, field, take_item, write_bool, write_bytes, write_int,
    write_link, write_list_front, write_map_front, write_null, write_number, write_text,
    write_value,
};
use at_cid::{Octets, Words};
use vector_lines::Case;

/// Answers a row of pieces.
pub fn pieces(case: &mut Case<'_>) {
    match case.part(" ") {
        "field" => field_of(case),
        "map" => map(case),
        "list" => list(case),
        "front" => front(case),
        word => piece(case, word),
    }
}

// The encoding of one item, or of the front of one.
fn piece(case: &mut Case<'_>, word: &str) {
    let mut out = Octets::new(case.alloc);
    let written = match word {
        "int" => write_int(&mut out, case.integer(" ")),
        "number" => write_number(&mut out, case.number(" ")),
        "list_front" => write_list_front(&mut out, case.size(" ")),
        "map_front" => write_map_front(&mut out, case.size(" ")),
        "bytes" => write_bytes(&mut out, case.bytes(" ").as_slice()),
        "text" => write_text(&mut out, case.part(" ")),
        "link" => write_link(&mut out, &case.link(" ")),
        "bool" => write_bool(&mut out, case.part(" ") == "true"),
        _ => {
            case.part(" ");
            write_null(&mut out)
        }
    };
    if case.did(written) {
        case.say_bytes(out.as_slice());
    }
}

fn say_item(case: &mut Case<'_>, value: &Value) {
    let mut out = Octets::new(case.alloc);
    if case.did(write_value(&mut out, value)) {
        case.say_bytes(out.as_slice());
    }
}

// The item of a row's next bytes.
fn item(case: &mut Case<'_>) -> Option<Value> {
    let given = case.bytes(" ");
    match case.gave(decode_whole(case.alloc, given.as_slice())) {
        Some(found) => found,
        None => None,
    }
}

// The item in front of bytes, and what is behind it.
fn front(case: &mut Case<'_>) {
    let given = case.bytes(" ");
    if let Some(Some((value, rest))) = case.gave(take_item(case.alloc, given.as_slice())) {
        say_item(case, &value);
        case.say(" ");
        case.say_bytes(rest);
    }
}

// The encoding of a field of a map, or that there is none.
fn field_of(case: &mut Case<'_>) {
    let name = case.part(" ");
    if let Some(map) = item(case) {
        match field(&map, name) {
            Some(value) => say_item(case, value),
            None => case.say("none"),
        }
    }
}

// How many fields a map has and its last key, and its encoding when its fields are put together anew.
fn map(case: &mut Case<'_>) {
    let mut made = Fields::new(case.alloc);
    if let Some(Value::Map(fields)) = item(case) {
        for (key, value) in fields.as_slice() {
            add_field(case, key, value, &mut made);
        }
    }
    case.say_number(made.len() as u64);
    case.say(" ");
    case.say(match made.last_key() {
        Some(key) => key.as_str(),
        None => "-",
    });
    case.say(" ");
    say_item(case, &Value::Map(made));
}

fn add_field(case: &mut Case<'_>, key: &Words, value: &Value, made: &mut Fields) {
    if let Some(key) = case.gave(key.try_clone()) {
        if let Some(value) = case.gave(value.try_clone(case.alloc)) {
            if made.admits(&key) {
                case.did(made.push(key, value));
            }
        }
    }
}

// How many items a list has, and its encoding when it is put together anew.
fn list(case: &mut Case<'_>) {
    let mut made = Values::new(case.alloc);
    if let Some(Value::List(values)) = item(case) {
        for value in values.as_slice() {
            add_value(case, value, &mut made);
        }
    }
    case.say_number(made.len() as u64);
    case.say(" ");
    say_item(case, &Value::List(made));
}

fn add_value(case: &mut Case<'_>, value: &Value, made: &mut Values) {
    if let Some(value) = case.gave(value.try_clone(case.alloc)) {
        case.did(made.push(value));
    }
}
