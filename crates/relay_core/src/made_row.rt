//! The row of a decided message.

ghost use Rattle.std.specs.Prelude.{◌≡◌, ◌+◌, ◌<◌, true, IfOk, option_map, if◌then◌else◌};
ghost use Rattle.at_cid.specs.declared.limits.TheConstants.{NUMBERS};
ghost use Rattle.relay_row.specs.declared.row.Row.{Row};
ghost use Rattle.relay_core.specs.Answering.{own_effect, fetched_of, goes_out, event_taken, row_of};
ghost use Rattle.relay_core.specs.Rows.{kind_number, head_effect, effect_of, faulty_taken};

use crate::answers::Answers;
use crate::decision::Decision;
use crate::journal_state::Core;
use at_cid::{Memory, Octets, Words};
use at_event::{Body, Event, Frame, Head, Refusal};
use relay_row::{Effect, Fetched, NewRow, Taken, loses};
use std::alloc::Global;

fn kind(body: &Body) -> u8
    ensures { result ≡ kind_number body.now }
{
    match body {
        Body::Commit(_) => 1,
        Body::Sync(_) => 2,
        Body::Identity => 3,
        Body::Account(_) => 4,
    }
}

fn repo_effect(opened: &Option<Result<Head, Refusal>>) -> Effect
    ensures { result ≡ head_effect opened.now }
{
    match opened {
        Some(Ok(head)) => Effect::Repo(*head),
        Some(Err(_)) | None => Effect::Nothing,
    }
}

fn copy_of(status: &Option<Words>) -> Result<Option<Words>, Memory>
    ensures { IfOk result (λ made. made ≡ status.now) }
{
    match status {
        Some(status) => Ok(Some(status.try_clone()?)),
        None => Ok(None),
    }
}

fn effect(body: &Body, answers: &Answers) -> Result<Effect, Memory>
    ensures { IfOk result (λ made. made ≡ effect_of body.now answers.now.opened) }
{
    match body {
        Body::Commit(_) | Body::Sync(_) => Ok(repo_effect(&answers.opened)),
        Body::Identity => Ok(Effect::Nothing),
        Body::Account(account) => Ok(Effect::Account(account.active, copy_of(&account.status)?)),
    }
}

fn fetched(refusal: Option<Refusal>, found: Option<Fetched>) -> Fetched
    ensures { result ≡ fetched_of refusal found }
{
    let is_due = match refusal {
        Some(refusal) => loses(&refusal),
        None => false,
    };
    match found {
        Some(found) if is_due => found,
        _ => Fetched::NotAsked,
    }
}

/// Whether a message that is decided so goes out.
pub fn goes_out(decision: &Decision) -> bool
    ensures { result ≡ goes_out decision.now.refusal decision.now.held }
{
    match decision.refusal {
        None => !decision.held,
        Some(_) => false,
    }
}

// The number of what goes out, behind the last one, or 0.
fn number(last: u64, decision: &Decision) -> u64
    requires { goes_out decision.now.refusal decision.now.held ≡ true → last + 1 < NUMBERS }
    ensures { result ≡ (if goes_out decision.now.refusal decision.now.held then last + 1 else 0) }
{
    if goes_out(decision) { last + 1 } else { 0 }
}

fn own_effect(refusal: Option<Refusal>, body: &Body, answers: &Answers) -> Result<Effect, Memory>
    ensures { IfOk result (λ made. made ≡ own_effect refusal body.now answers.now) }
{
    match refusal {
        None => effect(body, answers),
        Some(_) => Ok(Effect::Nothing),
    }
}

fn take_event(
    alloc: Global,
    last: u64,
    host: &str,
    event: Event,
    decision: &Decision,
    answers: Answers,
) -> Result<NewRow, Memory>
    requires { goes_out decision.now.refusal decision.now.held ≡ true → last + 1 < NUMBERS }
    ensures { IfOk result (λ taken. taken ≡ event_taken last host.now event decision.now answers) }
{
    let effect = own_effect(decision.refusal, &event.body, &answers)?;
    let moment = answers.moment;
    let taken = Taken {
        host: Words::from_str(alloc, host)?,
        host_seq: event.seq,
        did: event.did.try_clone()?,
        kind: kind(&event.body),
        refusal: decision.refusal,
        seq: number(last, decision),
        message: Octets::new(alloc),
        effect,
        fetched: fetched(decision.refusal, answers.fetched),
        moment,
    };
    if goes_out(decision) {
        NewRow::of_event(alloc, taken, event)
    } else {
        NewRow::new(alloc, taken)
    }
}

fn take_faulty(alloc: Global, host: &str, seq: u64, moment: Option<u64>) -> Result<NewRow, Memory>
    ensures { IfOk result (λ taken. taken ≡ faulty_taken host.now seq moment) }
{
    let taken = Taken {
        host: Words::from_str(alloc, host)?,
        host_seq: seq,
        did: Words::new(alloc),
        kind: 0,
        refusal: Some(Refusal::BadEvent),
        seq: 0,
        message: Octets::new(alloc),
        effect: Effect::Nothing,
        fetched: Fetched::NotAsked,
        moment,
    };
    NewRow::new(alloc, taken)
}

impl Core {
    /// The row of an event that is decided so, behind the last number. The event and the answers move into it.
    pub fn row_of_event(
        &self,
        alloc: Global,
        host: &str,
        event: Event,
        decision: &Decision,
        answers: Answers,
    ) -> Result<NewRow, Memory>
        requires { goes_out decision.now.refusal decision.now.held ≡ true
            → self.now.last + 1 < NUMBERS }
        ensures { IfOk result (λ taken. taken
            ≡ event_taken self.now.last host.now event decision.now answers) }
    {
        take_event(alloc, self.last, host, event, decision, answers)
    }

    /// The row of a message that is decided so, behind the last number; none for a message that
    /// makes no row. The message and the answers move into it.
    pub fn row(
        &self,
        alloc: Global,
        host: &str,
        frame: Frame,
        decision: &Decision,
        answers: Answers,
    ) -> Result<Option<NewRow>, Memory>
        requires { goes_out decision.now.refusal decision.now.held ≡ true
            → self.now.last + 1 < NUMBERS }
        ensures { IfOk result (λ row. option_map Row.Taken row
            ≡ row_of self.now.last host.now frame decision.now answers) }
    {
        match frame {
            Frame::Event(event) => {
                let row = self.row_of_event(alloc, host, event, decision, answers)?;
                Ok(Some(row))
            }
            Frame::Faulty(seq) => {
                let row = take_faulty(alloc, host, seq, answers.moment)?;
                Ok(Some(row))
            }
            Frame::Info | Frame::Error | Frame::Unknown => Ok(None),
        }
    }
}
