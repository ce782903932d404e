//! The answers that a row has at hand: `NAME=VALUE` with a blank between two. A head is `REV:DATA:COMMIT`, a refusal its number
//! with what it says behind it, each behind a `:`.

use at_event::{Head, Refusal};
use at_syntax::Tid;
use relay_core::Answers;
use relay_row::{Fetched, Whole};
use vector_lines::Case;

/// The answers of the next part, or `-` for none.
pub fn answers_of<'a>(case: &mut Case<'a>) -> Answers {
    let mut answers = Answers::new();
    let words = case.part(" ; ");
    if words != "-" {
        for word in words.split(' ') {
            let rest = case.turn(word);
            set(case, &mut answers);
            case.back(rest);
        }
    }
    answers
}

fn set(case: &mut Case<'_>, answers: &mut Answers) {
    match case.part("=") {
        "moment" => answers.moment = Some(case.number("=")),
        "home" => answers.home = Some(case.part("=") == "yes"),
        "verdict" => answers.verdict = Some(case.part("=") == "good"),
        "opened" => answers.opened = Some(opened_of(case)),
        "linked" => answers.linked = Some(linked_of(case)),
        _ => answers.fetched = Some(fetched_of(case)),
    }
}

fn opened_of(case: &mut Case<'_>) -> Result<Head, Refusal> {
    let word = case.part(":");
    match Tid::parse(word) {
        Some(rev) => Ok(head_of(case, rev)),
        None => Err(refusal_of(case, word)),
    }
}

fn head_of(case: &mut Case<'_>, rev: Tid) -> Head {
    Head {
        rev,
        data_root: case.link(":"),
        commit: case.link(":"),
    }
}

fn linked_of(case: &mut Case<'_>) -> Result<(), Refusal> {
    match case.part(":") {
        "ok" => Ok(()),
        code => Err(refusal_of(case, code)),
    }
}

fn refusal_of(case: &mut Case<'_>, code: &str) -> Refusal {
    match code {
        "20" => Refusal::BadNode(case.link(":")),
        "21" => Refusal::OtherOp(place_of(case)),
        "22" => Refusal::NotCovered(place_of(case)),
        "23" => Refusal::OtherData(case.link(":"), case.link(":")),
        _ => plain_refusal(code),
    }
}

fn place_of(case: &mut Case<'_>) -> u32 {
    u32::try_from(case.number(":")).unwrap_or(0)
}

fn plain_refusal(code: &str) -> Refusal {
    let code = code.parse::<u8>().ok().unwrap_or(0);
    match Refusal::plain(code) {
        Some(refusal) => refusal,
        None => Refusal::BadEvent,
    }
}

// What a fetch found: `none`, `absent`, a number, or `NUMBER:RECORDS:MESSAGE:HEAD`.
fn fetched_of<'a>(case: &mut Case<'a>) -> Fetched {
    match case.part("=") {
        "none" => Fetched::NotAsked,
        "absent" => Fetched::Absent,
        word if word.contains(':') => {
            let rest = case.turn(word);
            let whole = whole_of(case);
            case.back(rest);
            Fetched::Whole(whole)
        }
        word => Fetched::Refused(word.parse::<u8>().ok().unwrap_or(0)),
    }
}

fn whole_of(case: &mut Case<'_>) -> Whole {
    let seq = case.number(":");
    let records = case.number(":");
    let message = case.octets(":");
    let rev = Tid::parse(case.part(":"));
    Whole {
        seq,
        records,
        message,
        head: head_of(case, rev.unwrap_or(Tid::from_value(0))),
    }
}
