//! Bytes, texts and lists of links that grow and are copied, and the calls that fail of an object in memory.

use at_cid::{Cids, Failures, Octets, Words};
use vector_lines::Case;

/// Answers a row of lists.
pub fn lists(case: &mut Case<'_>) {
    match case.part(" ") {
        "octets" => octets(case),
        "over" => over(case),
        "cut" => cut(case),
        "words" => words(case),
        "links" => links(case),
        _ => calls(case),
    }
}

// Bytes, some more one by one, and some more at once: all of them and how many, as a copy has them.
fn octets(case: &mut Case<'_>) {
    let mut whole = case.octets(" ");
    for byte in case.bytes(" ").as_slice() {
        case.did(whole.push(*byte));
    }
    let more = case.bytes(" ");
    case.did(whole.extend(more.as_slice()));
    if let Some(copy) = case.gave(whole.try_clone()) {
        case.say_bytes(copy.as_slice());
        case.say(" ");
        case.say_number(copy.len() as u64);
    }
}

// Bytes with a piece written over those from a place on.
fn over(case: &mut Case<'_>) {
    let mut whole = case.octets(" ");
    let place = case.size(" ");
    let piece = case.bytes(" ");
    if whole.len() < place || whole.len() - place < piece.len() {
        return case.say("no place inside");
    }
    whole.overwrite(place, piece.as_slice());
    case.say_bytes(whole.as_slice());
}

// Bytes without those behind the first so many.
fn cut(case: &mut Case<'_>) {
    let mut whole = case.octets(" ");
    whole.truncate(case.size(" "));
    case.say_bytes(whole.as_slice());
}

// A text, its further letters one by one, and a text behind it: all of it and its bytes, as a copy has them.
fn words(case: &mut Case<'_>) {
    let front = case.part(" ");
    if let Some(mut whole) = case.gave(Words::from_str(case.alloc, front)) {
        for letter in case.part(" ").chars() {
            case.did(whole.push(letter));
        }
        let more = case.part(" ");
        case.did(whole.extend(more));
        say_copy(case, &whole);
    }
}

fn say_copy(case: &mut Case<'_>, words: &Words) {
    if let Some(copy) = case.gave(words.try_clone()) {
        case.say(copy.as_str());
        case.say(" ");
        case.say_bytes(copy.as_bytes());
        case.say(" ");
        case.say_number(copy.len() as u64);
    }
}

// The links of a list, and how many stand in it, as a copy has them.
fn links(case: &mut Case<'_>) {
    let mut list = Cids::new(case.alloc);
    for word in case.part(" ; ").split(' ') {
        let rest = case.turn(word);
        let link = case.link(" ");
        case.back(rest);
        case.did(list.push(link));
    }
    if let Some(copy) = case.gave(list.try_clone()) {
        case.say_links(copy.as_slice(), " ");
        case.say(" ");
        case.say_number(copy.len() as u64);
    }
}

// What calls come to of which one fails: `.`, or `!` where it fails. A call `!` fails by itself.
fn calls(case: &mut Case<'_>) {
    let failing = case.number(" ");
    if let Some(mut failures) = case.gave(Failures::new(case.alloc, &[failing])) {
        for name in case.part(" ").chars() {
            call(case, &mut failures, name);
        }
        case.say(" taken ");
        case.say_number(failures.taken);
        case.say(" faults ");
        case.say_number(failures.faults);
    }
}

fn call(case: &mut Case<'_>, failures: &mut Failures, name: char) {
    let came = if name == '!' {
        failures.fail(name)
    } else {
        failures.begin(name)
    };
    case.say(if came.is_ok() { "." } else { "!" });
}
