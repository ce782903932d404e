//! What authorities and panels answer.

use crate::tables::table_of;
use at_authority::{Asked, Authority, Judges, Panel, TableAuthority};
use at_syntax::did_ok;
use os_edge::FileAuthority;
use std::fs;
use vector_lines::Case;

/// The digest and the signature of every verdict that is asked.
const DIGEST: [u8; 32] = [0xab; 32];

const SIG: [u8; 1] = [0xff];

/// The file of an authority, which is removed behind each row.
const PATH: &str = "table.txt";

/// Answers `METHOD ; TABLE ; LATER TABLE ; FAILING ; DID ; HOST = home, verdict, home once it was refreshed, and how many are left
/// and have fallen` of a panel of one authority, whose calls with those numbers fail. Tables are in hexadecimal.
pub fn panel(case: &mut Case<'_>) {
    let method = case.part(" ; ");
    let now = table_of(case, " ; ");
    let later = table_of(case, " ; ");
    let failing = case.numbers(" ; ");
    if let (Some(now), Some(later)) = (now, later) {
        let authority = TableAuthority::new(case.alloc, now, later, failing.as_slice());
        if let Some(authority) = case.gave(authority) {
            let mut panel = Panel::new(case.alloc);
            match Box::new(case.alloc, authority) {
                Ok(authority) => {
                    case.did(panel.add(method, authority));
                }
                Err(_) => case.say("Memory"),
            }
            asked(case, &mut panel, method);
        }
    }
}

fn asked(case: &mut Case<'_>, panel: &mut Panel, method: &str) {
    let did = case.part(" ; ");
    let host = case.part(" ; ");
    if did_ok(did) {
        say_answer(case, panel.home(did, host).ok());
        say_answer(case, panel.verdict(did, &DIGEST, &SIG).ok());
        let is_done = panel.refresh(did).is_ok();
        case.say(if is_done { "done " } else { "undone " });
        say_answer(case, panel.home(did, host).ok());
    }
    case.say("left ");
    case.say_number(panel.left(method) as u64);
    case.say(" fallen ");
    case.say_number(panel.fallen(method));
}

fn say_answer(case: &mut Case<'_>, answer: Option<bool>) {
    case.say(match answer {
        Some(true) => "yes ",
        Some(false) => "no ",
        None => "none ",
    });
}

/// Answers `TABLE or none ; DID ; HOST = home, verdict, and home once it was refreshed` of an authority over a file that has the
/// table.
pub fn file(rt: &HostRuntime, case: &mut Case<'_>) {
    let _ = fs::remove_file(rt, PATH);
    if case.part(" ; ") == "file" {
        let content = case.bytes(" ; ");
        let _ = fs::write(rt, PATH, content.as_slice());
    }
    if let Some(path) = case.gave(PATH.to_string(case.alloc)) {
        let mut authority = FileAuthority::new(*rt, case.alloc, path);
        let did = case.part(" ; ");
        let host = case.part(" ; ");
        say_asked(case, authority.home(did, host));
        say_asked(case, authority.verdict(did, &DIGEST, &SIG));
        let is_done = authority.refresh(did).is_ok();
        case.say(if is_done { "done" } else { "undone" });
    }
    let _ = fs::remove_file(rt, PATH);
}

fn say_asked(case: &mut Case<'_>, answer: Result<bool, Asked>) {
    say_answer(case, answer.ok());
}
