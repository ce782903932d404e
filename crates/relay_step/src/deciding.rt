//! One message decided.

ghost use Rattle.std.specs.Prelude.{◌≡◌, ◌≢◌, ◌≤◌, false, Ok, Err, IsTrue, IfOk, IfErr, OnErr};
ghost use Rattle.at_cid.specs.Counts.{Rose};
ghost use Rattle.at_syntax.specs.Host.{is_host};
ghost use Rattle.at_event.specs.Frames.{frame_of};
ghost use Rattle.at_event.specs.declared.frame.Frame.{Frame as AFrame};
ghost use Rattle.relay_step.specs.Around.{SameAsked, around_of};
ghost use Rattle.relay_step.specs.Asked.{AskedInVain};
ghost use Rattle.relay_step.specs.Causes.{AskedInVainOf, CameToNothing, IsCause, OneTaken, SpendsNone};
ghost use Rattle.relay_step.specs.Messages.{IsAsked, IsDecided, IsFrameCause, IsSkippedAs, KeepsJournal, told_as};
ghost use Rattle.relay_step.specs.Steps.{rows_decided, step_of};
ghost use Rattle.relay_step.specs.Taking.{EventDecided, OtherDecided, is_event};

use crate::asked::Asked;
use crate::asking::ask_all;
use crate::decided::{Decided, Skipped, skip};
use crate::fault::StepFault;
use crate::losing::take_lost;
use crate::outside::ask_moment;
use crate::taking::take;
use at_authority::Judges;
use at_cid::ghost_text;
use at_event::{Event, Frame, FrameFault, read_frame};
use relay_core::{Answers, Core, Next, Question};
use relay_io::{Clock, Repos};
use relay_law::made_rows_are_formed;
use std::alloc::Global;

/// Decides an event.
fn decide_event<P: Judges, R: Repos, C: Clock>(
    alloc: Global,
    core: &Core,
    host: &str,
    event: Event,
    asked: &mut Asked<P, R, C>,
) -> Result<Decided, StepFault>
    ensures told { let old = around_of P.panel C.moments R.repository asked.old in
        let new = around_of P.panel C.moments R.repository asked.new in
        IfOk result (λ told.
        EventDecided C.tells R.tells core.now host.now event told old new) }
    ensures in_vain { let old = around_of P.panel C.moments R.repository asked.old in
        let new = around_of P.panel C.moments R.repository asked.new in
        OnErr result (CameToNothing C.tells R.tells
        (AskedInVain old.panel event.did new.panel) old new) }
    ensures caused { let old = around_of P.panel C.moments R.repository asked.old in
        let new = around_of P.panel C.moments R.repository asked.new in
        let frame = Ok (AFrame.Event event) in
        IfErr result (IsFrameCause C.tells R.tells core.now old host.now frame new
        (Rose (R.faults asked.old.repos.now) (R.faults asked.new.repos.now))
        (Rose (C.faults asked.old.clock.now) (C.faults asked.new.clock.now))) }
    ensures clock_counts { C.faults asked.old.clock.now ≤ C.faults asked.new.clock.now }
    ensures repos_count { R.faults asked.old.repos.now ≤ R.faults asked.new.repos.now }
    ensures unspent { result ≢ Err StepFault.Authority
        → SpendsNone (P.panel asked.old.judges.now) (P.panel asked.new.judges.now) }
    ensures clock_steady { result ≢ Err StepFault.Clock
        → C.faults asked.new.clock.now ≡ C.faults asked.old.clock.now }
    ensures repos_steady { result ≢ Err StepFault.Repos
        → R.faults asked.new.repos.now ≡ R.faults asked.old.repos.now }
    ensures same { SameAsked asked.old asked.new }
{
    event.ghost_event();
    let (next, answers) = ask_all(alloc, core, host, &event, asked.judges, asked.clock)?;
    match next {
        Next::Pass(_) => Ok(Decided::Skipped(Skipped::Old(event.seq))),
        Next::Done(decision) => take(alloc, core, host, event, &decision, answers),
        Next::Ask(_) => take_lost(alloc, core, host, event, answers, asked.judges, asked.repos),
    }
}

/// Decides a message that is no event: nobody but the clock is asked.
fn decide_other<C: Clock>(
    alloc: Global,
    core: &Core,
    host: &str,
    frame: Frame,
    clock: &mut C,
) -> Result<Decided, StepFault>
    requires other { is_event frame ≡ false }
    ensures told { IfOk result (λ told.
        OtherDecided C.tells core.now host.now frame told (C.moments clock.old)
        (C.moments clock.new)) }
    ensures in_vain { OnErr result (IsTrue C.tells
        → OneTaken (C.moments clock.old) (C.moments clock.new)) }
    ensures caused { IfErr result (IsCause ⊥ ⊥ ⊥ (Rose (C.faults clock.old) (C.faults clock.new))) }
    ensures counts { C.faults clock.old ≤ C.faults clock.new }
    ensures steady { result ≢ Err StepFault.Clock → C.faults clock.new ≡ C.faults clock.old }
{
    let mut answers = Answers::new();
    match core.next(host, &frame, &answers) {
        Next::Pass(_) => return Ok(Decided::Skipped(skip(&frame))),
        Next::Ask(Question::Moment) => answers.moment = Some(ask_moment(clock)?),
        _ => unreachable!(),
    }
    let Next::Done(decision) = core.next(host, &frame, &answers) else {
        unreachable!()
    };
    match core.row(alloc, host, frame, &decision, answers)? {
        Some(row) => Ok(Decided::Recorded(row)),
        None => unreachable!(),
    }
}

/// Decides a message of a host that hasn't ended: what has to be known of it is asked, each question once, and it makes a
/// row, or none. A message that doesn't read ends its host.
pub fn decide_message<P: Judges, R: Repos, C: Clock>(
    alloc: Global,
    core: &Core,
    host: &str,
    message: &[u8],
    asked: &mut Asked<P, R, C>,
) -> Result<Decided, StepFault>
    requires host { IsTrue (is_host host.now) }
    // Behind each journal for which the state stands, this is what comes of the message.
    ensures told { IfOk result (λ told.
        IsDecided core.now host.now (frame_of message.now) (told_as told)) }
    // Where it makes no row, it says why, as the message reads.
    ensures passed { IfOk result (IsSkippedAs (frame_of message.now)) }
    // This was asked around, and nothing else.
    ensures asked { let old = around_of P.panel C.moments R.repository asked.old in
        let new = around_of P.panel C.moments R.repository asked.new in
        IfOk result (λ told.
        IsAsked C.tells R.tells core.now old (step_of host.now message.now (told_as told)) new) }
    // With its row, a journal is one still.
    ensures formed { IfOk result (λ told. KeepsJournal core.now (rows_decided (told_as told))) }
    // Where it fails.
    ensures in_vain { let old = around_of P.panel C.moments R.repository asked.old in
        let new = around_of P.panel C.moments R.repository asked.new in
        OnErr result (CameToNothing C.tells R.tells
        (AskedInVainOf old.panel (frame_of message.now) new.panel) old new) }
    ensures caused { let old = around_of P.panel C.moments R.repository asked.old in
        let new = around_of P.panel C.moments R.repository asked.new in
        let frame = frame_of message.now in
        IfErr result (IsFrameCause C.tells R.tells core.now old host.now frame new
        (Rose (R.faults asked.old.repos.now) (R.faults asked.new.repos.now))
        (Rose (C.faults asked.old.clock.now) (C.faults asked.new.clock.now))) }
    ensures clock_counts { C.faults asked.old.clock.now ≤ C.faults asked.new.clock.now }
    ensures repos_count { R.faults asked.old.repos.now ≤ R.faults asked.new.repos.now }
    ensures unspent { result ≢ Err StepFault.Authority
        → SpendsNone (P.panel asked.old.judges.now) (P.panel asked.new.judges.now) }
    ensures clock_steady { result ≢ Err StepFault.Clock
        → C.faults asked.new.clock.now ≡ C.faults asked.old.clock.now }
    ensures repos_steady { result ≢ Err StepFault.Repos
        → R.faults asked.new.repos.now ≡ R.faults asked.old.repos.now }
    ensures same { SameAsked asked.old asked.new }
{
    let frame = match read_frame(alloc, message) {
        Ok(frame) => frame,
        Err(FrameFault::BadFrame) => return Ok(Decided::Skipped(Skipped::BadFrame)),
        Err(FrameFault::NoSeq) => return Ok(Decided::Skipped(Skipped::NoSeq)),
        Err(FrameFault::Memory) => return Err(StepFault::Memory),
    };
    made_rows_are_formed();
    ghost_text(host);
    match frame {
        Frame::Event(event) => {
            event.ghost_event();
            decide_event(alloc, core, host, event, asked)
        }
        other @ (Frame::Faulty(_) | Frame::Info | Frame::Error | Frame::Unknown) => {
            decide_other(alloc, core, host, other, asked.clock)
        }
    }
}
