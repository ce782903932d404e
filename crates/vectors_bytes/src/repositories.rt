//! Whole repositories, in pieces and in `#sync` events.

use at_cid::{Cid, Octets, Words};
use at_event::SyncEvent;
use at_syntax::{TID_LEN, Tid};
use relay_io::{MemoryRepos, Repos, Repository};
use repo_sync::{Found, OpenFault, RepoFault, check_repo, check_sync};
use vector_lines::Case;

/// So many bytes of a repository come at once.
const PIECE: usize = 7;

/// Answers `BYTES ; DID ; LEAST REVISION or - = what is found, or the fault with its number`.
pub fn repository(case: &mut Case<'_>) {
    let bytes = case.octets(" ; ");
    let name = case.part(" ; ");
    let least = Tid::parse(case.part(" ; "));
    if let Some(did) = case.gave(Words::from_str(case.alloc, name)) {
        let mut repositories = Vec::new(case.alloc);
        case.did(repositories.push(Repository { did, bytes }));
        if let Some(mut repos) = case.gave(MemoryRepos::new(case.alloc, repositories, PIECE, &[])) {
            if repos.open(name) == Ok(true) {
                say_answer(case, &check_repo(case.alloc, &mut repos, name, least));
            }
        }
    }
}

fn say_answer(case: &mut Case<'_>, answer: &Result<Found, RepoFault>) {
    match answer {
        Ok(found) => say_found(case, found),
        Err(fault) => say_fault(case, fault),
    }
}

fn say_found(case: &mut Case<'_>, found: &Found) {
    case.say("found ");
    case.say_number(found.records);
    case.say(" rev ");
    say_rev(case, found.head.rev);
    case.say(" data ");
    case.say_link(&found.head.data_root);
    case.say(" commit ");
    case.say_link(&found.head.commit);
    case.say(" digest ");
    case.say_bytes(&found.digest);
    case.say(" sig ");
    case.say_bytes(found.sig.as_slice());
}

fn say_rev(case: &mut Case<'_>, rev: Tid) {
    let mut letters = [0; TID_LEN];
    case.say(rev.write_text(&mut letters));
}

fn say_fault(case: &mut Case<'_>, fault: &RepoFault) {
    case.say_number(u64::from(fault.number()));
    case.say(" ");
    match fault {
        RepoFault::Lagging(rev) => {
            case.say("Lagging ");
            say_rev(case, *rev);
        }
        RepoFault::NotWhole(link) => say_named_link(case, "NotWhole ", link),
        RepoFault::BadNode(link) => say_named_link(case, "BadNode ", link),
        fault => case.say_named(fault),
    }
}

fn say_named_link(case: &mut Case<'_>, name: &str, link: &Cid) {
    case.say(name);
    case.say_link(link);
}

/// Answers `DID ; REVISION ; the account's last revision or - ; BLOCKS = what is found, or the refusal with its number`.
pub fn sync(case: &mut Case<'_>) {
    let name = case.part(" ; ");
    let rev = Tid::parse(case.part(" ; "));
    let last = Tid::parse(case.part(" ; "));
    let blocks = case.octets(" ; ");
    if let Some(did) = case.gave(Words::from_str(case.alloc, name)) {
        if let Some(rev) = rev {
            say_sync(case, &SyncEvent { did, rev, blocks }, last);
        }
    }
}

fn say_sync(case: &mut Case<'_>, event: &SyncEvent, last: Option<Tid>) {
    match check_sync(case.alloc, event, last) {
        Ok(found) => say_found(case, &found),
        Err(OpenFault::Refused(refusal)) => {
            case.say_number(u64::from(refusal.code()));
            case.say(" ");
            case.say(refusal.name());
        }
        Err(OpenFault::Memory) => case.say("Memory"),
    }
}
