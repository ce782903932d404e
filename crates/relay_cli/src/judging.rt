//! The verdict on one message.
ghost use Rattle.std.specs.Prelude.{IfOk};
ghost use Rattle.relay_cli.specs.Verdicts.{IsVerdict, JudgesBody, JudgesCommit};

use crate::verdict::CheckVerdict;
use at_cid::{Memory, Octets};
use at_event::{Body, CommitEvent, Event, Frame, FrameFault, Refusal, out_len, read_frame};
use commit_check::CheckFault;
use relay_core::LONGEST_MESSAGE;
use std::alloc::Global;

/// What a message comes to by itself. The message is let go as soon as it is read.
#[tactic(auto, unfolding(crate::specs::Verdicts::IsVerdict))]
pub fn judge(alloc: Global, message: Octets) -> Result<CheckVerdict, Memory>
    ensures { IfOk result (IsVerdict message) }
{
    let read = read_frame(alloc, message.as_slice());
    drop(message);
    match read {
        Ok(Frame::Event(event)) => judge_event(alloc, event),
        Ok(Frame::Faulty(_)) => Ok(CheckVerdict::Refused(Refusal::BadEvent)),
        Ok(_) => Ok(CheckVerdict::Refused(Refusal::NotCommit)),
        Err(FrameFault::Memory) => Err(Memory),
        Err(_) => Ok(CheckVerdict::Refused(Refusal::NotCommit)),
    }
}

// What is left of the payload is let go before the commit is checked.
fn judge_event(alloc: Global, event: Event) -> Result<CheckVerdict, Memory>
    ensures { IfOk result (JudgesBody event event.body) }
{
    let too_long = out_len(&event) > LONGEST_MESSAGE;
    let Event { body, rest, .. } = event;
    drop(rest);
    match body {
        Body::Commit(_) if too_long => Ok(CheckVerdict::Refused(Refusal::TooLong)),
        Body::Commit(commit) => judge_commit(alloc, commit.get()),
        _ => Ok(CheckVerdict::Refused(Refusal::NotCommit)),
    }
}

fn judge_commit(alloc: Global, event: &CommitEvent) -> Result<CheckVerdict, Memory>
    ensures { IfOk result (JudgesCommit event.now) }
{
    match commit_check::check(alloc, event) {
        Ok(checked) => Ok(CheckVerdict::Accepted(checked.from, checked.to, checked.ops)),
        Err(CheckFault::Refused(refusal)) => Ok(CheckVerdict::Refused(refusal)),
        Err(CheckFault::Memory) => Err(Memory),
    }
}
