//! The state behind journals. It is let go by `mem::drop`, to whose proof its parts are nothing.

use crate::journals::follow;
use account_state::{Account, Repo};
use at_event::Head;
use at_syntax::{TID_LEN, Tid};
use host_state::Hosts;
use relay_core::Core;
use row_codec::read_rows;
use std::mem;
use vector_lines::Case;

// More accounts than a row has.
const MOST: usize = 1000;

/// Answers `BODIES = last NUMBER hosts , HOST CURSOR .. accounts , DID ACCOUNT ..`.
pub fn folded(case: &mut Case<'_>) {
    let mut core = Core::new(case.alloc);
    follow(case, &mut core);
    say_state(case, &core);
    mem::drop(core);
}

fn say_state(case: &mut Case<'_>, core: &Core) {
    case.say("last ");
    case.say_number(core.last_seq());
    case.say(" hosts");
    say_hosts(case, core.hosts());
    case.say(" accounts");
    let mut name = "";
    for _ in 0..MOST {
        let Some((did, account)) = core.next_after(name) else {
            return;
        };
        case.say(" , ");
        case.say(did);
        case.say(" ");
        say_account(case, account);
        name = did;
    }
}

fn say_hosts(case: &mut Case<'_>, hosts: &Hosts) {
    for place in 0..hosts.len() {
        if let Some((host, cursor)) = hosts.at(place) {
            case.say(" , ");
            case.say(host);
            case.say(" ");
            case.say_number(cursor);
        }
    }
}

/// Answers what an account is.
pub fn say_account(case: &mut Case<'_>, account: &Account) {
    let (is_active, is_down) = (account.is_active(), account.is_down());
    case.say(if is_active { "active " } else { "inactive " });
    match account.status() {
        Some(status) => case.say_bytes(status.as_bytes()),
        None => case.say("none"),
    }
    case.say(if is_down { " down " } else { " up " });
    say_repo(case, &account.repo());
}

fn say_repo(case: &mut Case<'_>, repo: &Repo) {
    match repo {
        Repo::Missing => case.say("none"),
        Repo::Good(head) => say_head(case, head),
        Repo::Lost(None) => case.say("lost -"),
        Repo::Lost(Some(rev)) => {
            case.say("lost ");
            say_rev(case, *rev);
        }
    }
}

fn say_head(case: &mut Case<'_>, head: &Head) {
    case.say("good ");
    say_rev(case, head.rev);
    case.say(" ");
    case.say_link(&head.data_root);
    case.say(" ");
    case.say_link(&head.commit);
}

fn say_rev(case: &mut Case<'_>, rev: Tid) {
    let mut letters = [0; TID_LEN];
    case.say(rev.write_text(&mut letters));
}

/// Answers `BODIES ; TOUCHED ; DID = ACCOUNT, or none`: the account of a DID once there is room for an account, or for none by `-`.
pub fn account(case: &mut Case<'_>) {
    let mut core = Core::new(case.alloc);
    follow(case, &mut core);
    if let Some(touched) = case.part_or_none(" ; ") {
        case.did(core.touch("", touched));
    }
    match core.account(case.part(" ; ")) {
        Some(account) => say_account(case, account),
        None => case.say("none"),
    }
    mem::drop(core);
}

/// Answers `BODIES ; BODY = yes or no`: whether the row may stand behind the others.
pub fn order(case: &mut Case<'_>) {
    let mut core = Core::new(case.alloc);
    follow(case, &mut core);
    let body = case.bytes(" ; ");
    if let Some(rows) = case.gave(read_rows(case.alloc, body.as_slice())) {
        let is_next = rows.as_slice().last().is_some_and(|row| core.is_next(row));
        case.say_yes(is_next);
    }
    mem::drop(core);
}
