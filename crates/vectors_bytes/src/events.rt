//! Messages of a stream. Each is let go by `mem::drop`, to whose proof its parts are nothing.

ghost use Rattle.std.specs.Prelude.{◌<◌};
ghost use Rattle.at_cid.specs.declared.limits.TheConstants.{NUMBERS};

use at_cid::{Memory, NUMBERS, Octets};
use at_event::{
    Event, Frame, FrameFault, Refusal, account_frame, out_frame, out_len, read_frame, sync_frame,
};
use at_syntax::Tid;
use std::mem;
use vector_lines::Case;

/// Answers what a message reads as.
pub fn frame(case: &mut Case<'_>) {
    let message = case.bytes(" ");
    let frame = read_frame(case.alloc, message.as_slice());
    say_frame(case, &frame);
    mem::drop(frame);
}

fn say_frame(case: &mut Case<'_>, frame: &Result<Frame, FrameFault>) {
    match frame {
        Ok(Frame::Event(event)) => say_event(case, event),
        Ok(Frame::Faulty(seq)) => {
            case.say("Faulty(");
            case.say_number(*seq);
            case.say(")");
        }
        Ok(Frame::Info) => case.say("Info"),
        Ok(Frame::Error) => case.say("Error"),
        Ok(Frame::Unknown) => case.say("Unknown"),
        Err(fault) => case.say_named(fault),
    }
}

fn say_event(case: &mut Case<'_>, event: &Event) {
    case.say("Event ");
    case.say_named(&event.kind());
    case.say(" seq ");
    case.say_number(event.seq);
    case.say(" did ");
    case.say(event.did.as_str());
    case.say(" out_len ");
    case.say_number(out_len(event));
}

/// Answers `NUMBER MESSAGE = the message that goes out under that number`.
pub fn renumbered(case: &mut Case<'_>) {
    let seq = case.number(" ");
    let message = case.bytes(" ");
    let frame = read_frame(case.alloc, message.as_slice());
    match &frame {
        Ok(Frame::Event(event)) if seq < NUMBERS => {
            say_message(case, out_frame(case.alloc, event, seq));
        }
        Err(fault) => case.say_named(fault),
        _ => case.say("no event"),
    }
    mem::drop(frame);
}

fn say_message(case: &mut Case<'_>, message: Result<Octets, Memory>) {
    if let Some(message) = case.gave(message) {
        case.say_bytes(message.as_slice());
    }
}

/// Answers `sync SEQ DID TIME REV BLOCKS` or `account SEQ DID TIME ACTIVE STATUS` with the message of the relay's own event.
pub fn own_event(case: &mut Case<'_>) {
    let kind = case.part(" ");
    let seq = case.number(" ");
    let did = case.part(" ");
    let time = case.part(" ");
    if seq < NUMBERS {
        match kind {
            "sync" => sync(case, seq, did, time),
            _ => account(case, seq, did, time),
        }
    }
}

fn sync(case: &mut Case<'_>, seq: u64, did: &str, time: &str)
    requires { seq < NUMBERS }
{
    let rev = case.part(" ");
    let blocks = case.bytes(" ");
    if let Some(rev) = Tid::parse(rev) {
        say_message(
            case,
            sync_frame(case.alloc, did, rev, blocks.as_slice(), time, seq),
        );
    }
}

fn account(case: &mut Case<'_>, seq: u64, did: &str, time: &str)
    requires { seq < NUMBERS }
{
    let is_active = case.part(" ") == "active";
    let status = case.part(" ");
    let status = if status == "-" { None } else { Some(status) };
    say_message(
        case,
        account_frame(case.alloc, did, is_active, status, time, seq),
    );
}

/// Answers `NUMBER = the name of the refusal` of one that says no more.
pub fn refusal(case: &mut Case<'_>) {
    let code = u8::try_from(case.number(" ")).unwrap_or(0);
    match Refusal::plain(code) {
        Some(refusal) => case.say(refusal.name()),
        None => case.say("none"),
    }
}
