//! DIDs, record paths, host names and TIDs.

use at_syntax::{TID_LEN, Tid, did_ok, host_ok, method, path_ok};
use vector_lines::Case;

/// Answers a row of names: the `order` of two TIDs, the TID of a `value`, or whether bytes are a name.
pub fn names(case: &mut Case<'_>) {
    match case.part(" ") {
        "order" => order(case),
        "value" => of_value(case),
        kind => named(case, kind),
    }
}

fn named(case: &mut Case<'_>, kind: &str) {
    let bytes = case.bytes(" ");
    let Ok(text) = str::from_utf8(bytes.as_slice()) else {
        return case.say("no text");
    };
    match kind {
        "did" => say_ok(case, did_ok(text)),
        "path" => say_ok(case, path_ok(text)),
        "host" => say_ok(case, host_ok(text)),
        "tid" => tid(case, text),
        _ => method_of(case, text),
    }
}

fn say_ok(case: &mut Case<'_>, is: bool) {
    case.say(if is { "ok" } else { "no" });
}

fn tid(case: &mut Case<'_>, text: &str) {
    match Tid::parse(text) {
        Some(tid) => case.say_number(tid.value()),
        None => case.say("no"),
    }
}

fn method_of(case: &mut Case<'_>, did: &str) {
    if did_ok(did) {
        case.say(method(did));
    }
}

fn of_value(case: &mut Case<'_>) {
    let tid = Tid::from_value(case.number(" "));
    let mut letters = [0; TID_LEN];
    case.say(tid.write_text(&mut letters));
}

fn order(case: &mut Case<'_>) {
    let left = Tid::parse(case.part(" "));
    let right = Tid::parse(case.part(" "));
    if let (Some(left), Some(right)) = (left, right) {
        case.say_named(&left.cmp(&right));
    }
}
