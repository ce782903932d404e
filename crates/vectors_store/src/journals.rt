//! Journals: the bodies of their rows in hexadecimal.

use at_cid::Octets;
use relay_core::Core;
use relay_row::Row;
use row_codec::{Rows, read_rows, write_encoded, write_row, write_rows};
use std::{fs, mem};
use vector_lines::Case;

/// Answers `BODY = ok COUNT, or BadRow`. What was read is written again.
pub fn body(case: &mut Case<'_>) {
    let body = case.bytes(" ");
    if let Some(rows) = case.gave(read_rows(case.alloc, body.as_slice())) {
        case.say("ok ");
        case.say_number(rows.len() as u64);
        written(case, &rows, body.as_slice());
    }
}

fn written(case: &mut Case<'_>, rows: &Rows, body: &[u8]) {
    if let Some(again) = case.gave(write_rows(case.alloc, rows)) {
        case.must(again.as_slice() == body, ", other bytes are written");
        let mut copied = Octets::new(case.alloc);
        for row in rows.as_slice() {
            add_copy(case, &mut copied, row);
        }
        let mut encoded = Octets::new(case.alloc);
        case.did(write_encoded(&mut encoded, rows.as_slice()));
        case.must(copied == encoded, ", a copy differs");
    }
}

fn add_copy(case: &mut Case<'_>, out: &mut Octets, row: &Row) {
    let copy = row.try_clone();
    match &copy {
        Ok(copy) => {
            case.did(write_row(out, copy));
        }
        Err(_) => case.say("Memory"),
    }
    mem::drop(copy);
}

/// Has the state follow the rows of a row's next part, bodies with a blank between two, or `-` for none.
pub fn follow(case: &mut Case<'_>, core: &mut Core) {
    let bodies = case.part(" ; ");
    if bodies != "-" {
        for word in bodies.split(' ') {
            let rest = case.turn(word);
            follow_body(case, core);
            case.back(rest);
        }
    }
}

fn follow_body(case: &mut Case<'_>, core: &mut Core) {
    let body = case.bytes(" ");
    if let Some(rows) = case.gave(read_rows(case.alloc, body.as_slice())) {
        for row in rows.into_vec() {
            learn(case, core, row);
        }
    }
}

// A row is let go by `mem::drop`, to whose proof its parts are nothing.
fn learn(case: &mut Case<'_>, core: &mut Core, mut row: Row) {
    let learned = core.learn(&mut row);
    mem::drop(row);
    case.did(learned);
}

/// Has the state follow the rows of a file, of which each line is a body; a line that begins with `#` is a remark.
pub fn follow_file(rt: &HostRuntime, path: &str, core: &mut Core) {
    if let Ok(text) = fs::read_to_string(rt, path) {
        for line in text.lines() {
            if !line.starts_with('#') {
                follow_body(&mut Case::new(rt.alloc(), line), core);
            }
        }
    }
}
