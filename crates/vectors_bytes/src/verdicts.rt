//! Commits that are checked, with what their account holds and by themselves.

use at_cid::cid_of;
use at_event::{Body, CommitEvent, Event, Frame, Head, read_frame};
use at_syntax::Tid;
use commit_check::{CheckFault, Checked, Expect, check, link, open_commit};
use std::alloc::Global;
use std::mem;
use vector_lines::Case;

/// Answers `ACCOUNT | MESSAGE = NUMBER NUMBER`: the numbers of the refusals of the message's commit with its account, which is
/// `new`, `good REV DATA` or `lost REV`, and by itself. 0 is none.
pub fn followed(case: &mut Case<'_>) {
    let (last, expect) = account_of(case);
    let message = case.bytes(" ");
    let frame = read_frame(case.alloc, message.as_slice());
    match &frame {
        Ok(Frame::Event(event)) => say_codes(case, event, last, &expect),
        Err(fault) => case.say_named(fault),
        _ => case.say("no event"),
    }
    mem::drop(frame);
}

fn say_codes(case: &mut Case<'_>, event: &Event, last: Option<Tid>, expect: &Expect) {
    if let Body::Commit(commit) = &event.body {
        say_code(case, follow(case.alloc, last, expect, commit.get()));
        case.say(" ");
        say_alone(case, check(case.alloc, commit.get()));
    }
}

// The last revision of an account, and what is expected of its next commit.
fn account_of(case: &mut Case<'_>) -> (Option<Tid>, Expect) {
    let account = case.part(" | ");
    let rest = case.turn(account);
    let word = case.part(" ");
    let rev = match word {
        "new" => None,
        _ => Tid::parse(case.part(" ")),
    };
    let expect = match (word, rev) {
        ("good", Some(rev)) => Expect::After(Head {
            rev,
            data_root: case.link(" "),
            commit: cid_of(b"the commit before"),
        }),
        ("lost", _) => Expect::Lost,
        _ => Expect::Start,
    };
    case.back(rest);
    (rev, expect)
}

fn follow(
    alloc: Global,
    last: Option<Tid>,
    expect: &Expect,
    commit: &CommitEvent,
) -> Result<(), CheckFault> {
    let opened = open_commit(alloc, commit, last)?;
    link(alloc, commit, &opened, expect)
}

fn say_alone(case: &mut Case<'_>, answer: Result<Checked, CheckFault>) {
    match answer {
        Ok(_) => case.say("0"),
        Err(CheckFault::Refused(refusal)) => case.say_number(u64::from(refusal.code())),
        Err(CheckFault::Memory) => case.say("Memory"),
    }
}

fn say_code(case: &mut Case<'_>, answer: Result<(), CheckFault>) {
    match answer {
        Ok(()) => case.say("0"),
        Err(CheckFault::Refused(refusal)) => case.say_number(u64::from(refusal.code())),
        Err(CheckFault::Memory) => case.say("Memory"),
    }
}
