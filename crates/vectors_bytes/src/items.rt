//! The DAG-CBOR item at the front of bytes: its kind and the length of its encoding, or the fault.

use at_cbor::{Value, decode, encode};
use at_cid::{Memory, Octets};
use vector_lines::Case;

/// Answers a row of items.
pub fn item(case: &mut Case<'_>) {
    let given = case.bytes(" ");
    match decode(case.alloc, given.as_slice()) {
        Ok((value, len)) => {
            let again = encode(case.alloc, &value);
            say_item(case, &value, again, given.get(..len));
        }
        Err(fault) => case.say_named(&fault),
    }
}

// Answers the kind of a value and the length of its encoding, where that is the one that was given.
fn say_item(
    case: &mut Case<'_>,
    value: &Value,
    again: Result<Octets, Memory>,
    given: Option<&[u8]>,
) {
    if let Some(again) = case.gave(again) {
        case.say(kind(value));
        case.say(" ");
        case.say_number(again.len() as u64);
        case.must(Some(again.as_slice()) == given, ", another spelling");
    }
}

fn kind(value: &Value) -> &'static str {
    if value.as_int().is_some() {
        "Int"
    } else if value.as_bytes().is_some() {
        "Bytes"
    } else if value.as_text().is_some() {
        "Text"
    } else if value.as_list().is_some() {
        "List"
    } else if value.as_map().is_some() {
        "Map"
    } else if value.as_link().is_some() {
        "Link"
    } else if value.as_bool().is_some() {
        "Bool"
    } else {
        "Null"
    }
}
