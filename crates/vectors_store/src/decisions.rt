//! `BODIES ; HOST ; MESSAGE ; ANSWERS = QUESTIONS ; WHAT ; BODY`: behind the rows of the bodies the host sends the message; the
//! questions are those that are asked, in their order, and the body is that of the row that is made. A message and a row are let
//! go by `mem::drop`, to whose proof their parts are nothing.

use crate::answers::answers_of;
use crate::journals::follow;
use at_cbor::write_list_front;
use at_cid::{Memory, NUMBERS, Octets};
use at_event::{Frame, read_frame};
use relay_core::{Answers, Core, Decision, Next, Question};
use relay_row::NewRow;
use row_codec::write_new_row;
use std::mem;
use vector_lines::Case;

// More questions than there are.
const MOST_QUESTIONS: usize = 8;

/// Answers a row of decisions.
pub fn decision(case: &mut Case<'_>) {
    let mut core = Core::new(case.alloc);
    follow(case, &mut core);
    let host = case.part(" ; ");
    let message = case.bytes(" ; ");
    let mut frame = read_frame(case.alloc, message.as_slice());
    match &mut frame {
        Ok(frame) => decided(case, &core, host, frame),
        Err(fault) => case.say_named(fault),
    }
    mem::drop(frame);
    mem::drop(core);
}

fn decided(case: &mut Case<'_>, core: &Core, host: &str, frame: &mut Frame) {
    let mut given = answers_of(case);
    let mut answers = Answers::new();
    for _ in 0..MOST_QUESTIONS {
        let Next::Ask(question) = core.next(host, frame, &answers) else {
            break;
        };
        case.say_named(&question);
        case.say(" ");
        give(&mut answers, &mut given, question);
    }
    match core.next(host, frame, &answers) {
        Next::Done(decision) => done(case, core, host, frame, &decision, answers),
        Next::Pass(pass) => {
            case.say("; passed ");
            case.say_named(&pass);
        }
        Next::Ask(_) => case.say("a question without an answer"),
    }
}

// Hands one answer over.
fn give(answers: &mut Answers, given: &mut Answers, question: Question) {
    match question {
        Question::Moment => answers.moment = given.moment,
        Question::Refresh => answers.refreshed = true,
        Question::Home => answers.home = given.home,
        Question::Open => answers.opened = given.opened,
        Question::Verdict => answers.verdict = given.verdict,
        Question::Link => answers.linked = given.linked,
        Question::Fetch => answers.fetched = given.fetched.take(),
    }
}

fn done(
    case: &mut Case<'_>,
    core: &Core,
    host: &str,
    frame: &mut Frame,
    decision: &Decision,
    answers: Answers,
) {
    say_decision(case, decision);
    if core.last_seq() < NUMBERS - 1 {
        let frame = mem::replace(frame, Frame::Unknown);
        let row = core.row(case.alloc, host, frame, decision, answers);
        say_row(case, &row);
        mem::drop(row);
    }
}

fn say_decision(case: &mut Case<'_>, decision: &Decision) {
    match &decision.refusal {
        Some(refusal) => {
            case.say("; refused ");
            case.say_number(u64::from(refusal.code()));
            case.say(" ");
            case.say(refusal.name());
        }
        None => case.say(if decision.held {
            "; held"
        } else {
            "; accepted"
        }),
    }
    case.say(if decision.gives { " gives ; " } else { " ; " });
}

// Answers the body of a row with its message.
fn say_row(case: &mut Case<'_>, row: &Result<Option<NewRow>, Memory>) {
    match row {
        Ok(Some(row)) => {
            let mut body = Octets::new(case.alloc);
            case.did(write_list_front(&mut body, 1));
            case.did(write_new_row(&mut body, row));
            case.say_bytes(body.as_slice());
        }
        Ok(None) => case.say("no row"),
        Err(Memory) => case.say("Memory"),
    }
}
