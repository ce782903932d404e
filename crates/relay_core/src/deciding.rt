//! What comes next for a message, by the answers so far: down the table of refusals to the first
//! line that applies or that waits for an answer.

ghost use Rattle.std.specs.Prelude.{◌≡◌, [], ◌∷◌, if◌then◌else◌};
ghost use Rattle.at_event.specs.declared.event.Body.{Body};
ghost use Rattle.at_event.specs.declared.frame.Frame.{Frame as TheFrame};
ghost use Rattle.at_event.specs.Writing.{out_length};
ghost use Rattle.account_state.specs.State.{State};
ghost use Rattle.relay_core.specs.Decide.{is_ahead};
ghost use Rattle.relay_core.specs.Entries.{state_in};
ghost use Rattle.relay_core.specs.Table.{walk, next_at, next_of, refused, accepted, home_line, link_line, repo_lines, body_lines, event_lines, faulty_lines};

use crate::answers::{Answers, Question};
use crate::decision::{Decision, Next, Pass};
use crate::limits::{LONGEST_MESSAGE, MOST_AHEAD};
use crate::standing::{is_active, is_down};
use account_state::Account;
use at_event::{Body, Event, Frame, Refusal, out_len};
use at_syntax::Tid;
use relay_row::{Fetched, loses};

fn done(refusal: Option<Refusal>, held: bool, gives: bool) -> Next
    ensures { result ≡ Next.Done (record { refusal = refusal; held = held; gives = gives }) }
{
    Next::Done(Decision {
        refusal,
        held,
        gives,
    })
}

// A refusal, once what follows it is known.
fn refuse(refusal: Refusal, answers: &Answers) -> Next
    ensures { result ≡ refused refusal answers.now.fetched }
{
    if !loses(&refusal) {
        return done(Some(refusal), false, false);
    }
    match &answers.fetched {
        None => Next::Ask(Question::Fetch),
        Some(Fetched::Whole(_)) => done(Some(refusal), false, true),
        Some(_) => done(Some(refusal), false, false),
    }
}

/// Whether a revision is far ahead of the clock's moment, where that is known.
pub fn is_ahead(rev: Tid, moment: Option<u64>) -> bool
    ensures { result ≡ is_ahead rev moment }
{
    match moment {
        None => false,
        Some(moment) => (rev.value() / 1024).saturating_sub(MOST_AHEAD) > moment,
    }
}

fn accept(account: Option<&Account>, body: &Body) -> Next
    ensures { result ≡ accepted (state_in account.entry) body.now }
{
    let held = match body {
        Body::Account(_) => is_down(account),
        Body::Commit(_) | Body::Sync(_) | Body::Identity => false,
    };
    done(None, held, !held)
}

// A commit or a sync of a revision, from its home on.
fn next_of_repo(
    account: Option<&Account>,
    body: &Body,
    rev: Tid,
    is_commit: bool,
    answers: &Answers,
) -> Next
    ensures { result
        ≡ next_at (walk (repo_lines (state_in account.entry) rev answers.now
        (if is_commit then link_line answers.now ∷ [] else [])))
        (state_in account.entry) body.now answers.now.fetched }
{
    match answers.home {
        None => return Next::Ask(Question::Home),
        Some(false) => return refuse(Refusal::NotHome, answers),
        Some(true) => {}
    }
    if !is_active(account) {
        return refuse(Refusal::Inactive, answers);
    }
    if is_down(account) {
        return refuse(Refusal::TakenDown, answers);
    }
    match &answers.opened {
        None => return Next::Ask(Question::Open),
        Some(Err(refusal)) => return refuse(*refusal, answers),
        Some(Ok(_)) => {}
    }
    if is_ahead(rev, answers.moment) {
        return refuse(Refusal::FutureRev, answers);
    }
    match answers.verdict {
        None => return Next::Ask(Question::Verdict),
        Some(false) => return refuse(Refusal::BadSignature, answers),
        Some(true) => {}
    }
    if is_commit {
        match &answers.linked {
            None => return Next::Ask(Question::Link),
            Some(Err(refusal)) => return refuse(*refusal, answers),
            Some(Ok(_)) => {}
        }
    }
    accept(account, body)
}

fn next_of_identity(account: Option<&Account>, answers: &Answers) -> Next
    ensures { result
        ≡ next_at (walk (body_lines (state_in account.entry) Body.Identity answers.now))
        (state_in account.entry) Body.Identity answers.now.fetched }
{
    if !answers.refreshed {
        return Next::Ask(Question::Refresh);
    }
    match answers.home {
        None => return Next::Ask(Question::Home),
        Some(false) => return refuse(Refusal::NotHome, answers),
        Some(true) => {}
    }
    if is_down(account) {
        return refuse(Refusal::TakenDown, answers);
    }
    accept(account, &Body::Identity)
}

fn next_of_account(account: Option<&Account>, body: &Body, answers: &Answers) -> Next
    ensures { result ≡ next_at (walk (home_line answers.now ∷ []))
        (state_in account.entry) body.now answers.now.fetched }
{
    match answers.home {
        None => Next::Ask(Question::Home),
        Some(false) => refuse(Refusal::NotHome, answers),
        Some(true) => accept(account, body),
    }
}

fn next_of_event(account: Option<&Account>, event: &Event, len: u64, answers: &Answers) -> Next
    requires { len ≡ out_length event.now }
    ensures { result ≡ next_at (walk (event_lines (state_in account.entry) event.now answers.now))
        (state_in account.entry) event.now.body answers.now.fetched }
{
    if answers.moment.is_none() {
        return Next::Ask(Question::Moment);
    }
    if len > LONGEST_MESSAGE {
        return refuse(Refusal::TooLong, answers);
    }
    match &event.body {
        Body::Commit(commit) => next_of_repo(account, &event.body, commit.get().rev, true, answers),
        Body::Sync(sync) => next_of_repo(account, &event.body, sync.rev, false, answers),
        Body::Identity => next_of_identity(account, answers),
        Body::Account(_) => next_of_account(account, &event.body, answers),
    }
}

fn next_of_faulty(answers: &Answers) -> Next
    ensures { (a : State) → result ≡ next_at
        (walk (faulty_lines answers.now)) a Body.Identity answers.now.fetched }
{
    if answers.moment.is_none() {
        return Next::Ask(Question::Moment);
    }
    refuse(Refusal::BadEvent, answers)
}

/// What comes next for an event, at its host's cursor and the account of its DID, where `len` is how long it goes out at
/// most, as [`out_len`] tells.
pub fn next_for_event_of_len(
    cursor: u64,
    account: Option<&Account>,
    event: &Event,
    len: u64,
    answers: &Answers,
) -> Next
    requires { len ≡ out_length event.now }
    ensures { result ≡ next_of cursor (state_in account.entry)
        (TheFrame.Event event.now) answers.now }
{
    if event.seq <= cursor {
        return Next::Pass(Pass::Old);
    }
    next_of_event(account, event, len, answers)
}

/// What comes next for an event, at its host's cursor and the account of its DID.
pub fn next_for_event(
    cursor: u64,
    account: Option<&Account>,
    event: &Event,
    answers: &Answers,
) -> Next
    ensures { result ≡ next_of cursor (state_in account.entry)
        (TheFrame.Event event.now) answers.now }
{
    next_for_event_of_len(cursor, account, event, out_len(event), answers)
}

/// What comes next for a message, at its host's cursor and the account of its DID.
pub fn next_for(cursor: u64, account: Option<&Account>, frame: &Frame, answers: &Answers) -> Next
    ensures { result ≡ next_of cursor (state_in account.entry) frame.now answers.now }
{
    match frame {
        Frame::Event(event) => next_for_event(cursor, account, event, answers),
        Frame::Faulty(seq) if *seq <= cursor => Next::Pass(Pass::Old),
        Frame::Faulty(_) => next_of_faulty(answers),
        Frame::Info => Next::Pass(Pass::Info),
        Frame::Error => Next::Pass(Pass::Ended),
        Frame::Unknown => Next::Pass(Pass::Unknown),
    }
}
