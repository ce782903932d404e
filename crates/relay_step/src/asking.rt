//! The questions about an event, asked one at a time.

ghost use Rattle.std.specs.Prelude.{◌≡◌, ◌≢◌, ◌≤◌, ◌<◌, ℕ, List, true, false, Ok, Err, IsTrue, IfOk, IfErr, OnOk, OnErr};
ghost use Rattle.at_cid.specs.Counts.{Rose};
ghost use Rattle.at_syntax.specs.Did.{is_did};
ghost use Rattle.at_authority.specs.Panels.{Panel};
ghost use Rattle.at_event.specs.declared.frame.Frame.{Frame as AFrame};
ghost use Rattle.relay_core.specs.Entries.{account_in, state_in};
ghost use Rattle.relay_core.specs.declared.decision.Next.{Next as ANext};
ghost use Rattle.relay_step.specs.Asked.{AskedInVain};
ghost use Rattle.relay_step.specs.Causes.{IsCause, IsSpentFor, OneTaken, SpendsNone};
ghost use Rattle.relay_step.specs.Fetches.{AskedPlain};
ghost use Rattle.relay_step.specs.Questions.{AreAskedAbout, IsReadFor, is_fetch, is_last, next_about, open_count};

use crate::fault::StepFault;
use crate::outside::{ask_home, ask_moment, ask_refresh};
use crate::reading::{Read, follow, judge, last_rev, open};
use account_state::{Account, Repo};
use at_authority::Judges;
use at_event::{Event, out_len};
use relay_core::{Answers, Core, Next, Question, next_for_event_of_len};
use relay_io::Clock;
use std::alloc::Global;

// What is known of the repository of an account that was looked up.
fn repo_in(account: Option<&Account>) -> Repo
    ensures { result ≡ (state_in account.entry).repo }
{
    match account {
        Some(account) => account.repo(),
        None => Repo::Missing,
    }
}

/// What is known of the repository of an account.
pub(crate) fn repo_of(core: &Core, did: &str) -> Repo
    ensures { result ≡ (account_in core.now did.now).repo }
{
    repo_in(core.account(did))
}

// The account of an event, where a row names it.
fn account_of<'core>(core: &'core Core, event: &Event) -> Option<&'core Account>
    ensures { state_in result ≡ account_in core.now event.now.did }
{
    core.account(event.did.as_str())
}

// Whether the account's repository is asked for.
fn is_fetch(question: Question) -> bool
    ensures { result ≡ is_fetch question }
{
    matches!(question, Question::Fetch)
}

// An event of a host that is asked about, and what is known of its account's repository.
#[derive(Drop)]
struct Inquiry<'core, 'host, 'event> {
    core: &'core Core,
    host: &'host str,
    event: &'event Event,
    repo: Repo,
}

/// Asks the question that comes next about an event, but for that of its account's repository.
fn ask_one<P: Judges, C: Clock>(
    alloc: Global,
    inquiry: &Inquiry<'_, '_, '_>,
    question: Question,
    answers: &mut Answers,
    read: &mut Read,
    judges: &mut P,
    clock: &mut C,
) -> Result<(), StepFault>
    requires asks { next_about inquiry.now.core.now inquiry.now.host.now inquiry.now.event.now
        answers.old ≡ ANext.Ask question }
    requires repo { inquiry.now.repo
        ≡ (account_in inquiry.now.core.now inquiry.now.event.now.did).repo }
    requires other { is_fetch question ≡ false }
    requires read { IsReadFor inquiry.now.event.now.body answers.old.opened read.old }
    requires did { IsTrue (is_did inquiry.now.event.now.did) }
    ensures asked { OnOk result ((old : Panel) (moments : List ℕ)
        → AreAskedAbout C.tells inquiry.now.core.now inquiry.now.host.now inquiry.now.event.now
        answers.old old moments (P.panel judges.old) (C.moments clock.old)
        → AreAskedAbout C.tells inquiry.now.core.now inquiry.now.host.now inquiry.now.event.now
        answers.new old moments (P.panel judges.new) (C.moments clock.new)) }
    ensures read { OnOk result (IsReadFor inquiry.now.event.now.body answers.new.opened read.new) }
    ensures fewer { OnOk result (open_count answers.new < open_count answers.old) }
    ensures in_vain { OnErr result (AskedPlain (P.panel judges.old) inquiry.now.event.now.did
        (P.panel judges.new)) }
    ensures kept { OnErr result (IsTrue C.tells → C.moments clock.new ≡ C.moments clock.old) }
    ensures caused { IfErr result (IsCause ⊥
        (IsSpentFor inquiry.now.core.now inquiry.now.host.now
        (Ok (AFrame.Event inquiry.now.event.now)) (P.panel judges.new))
        ⊥ (Rose (C.faults clock.old) (C.faults clock.new))) }
    ensures counts { C.faults clock.old ≤ C.faults clock.new }
    ensures unspent { result ≢ Err StepFault.Authority
        → SpendsNone (P.panel judges.old) (P.panel judges.new) }
    ensures steady { result ≢ Err StepFault.Clock → C.faults clock.new ≡ C.faults clock.old }
{
    let event = inquiry.event;
    let did = event.did.as_str();
    match question {
        Question::Moment => {
            let moment = ask_moment(clock)?;
            answers.moment = Some(moment);
        }
        Question::Refresh => {
            ask_refresh(judges, did)?;
            answers.refreshed = true;
        }
        Question::Home => {
            let is_home = ask_home(judges, did, inquiry.host)?;
            answers.home = Some(is_home);
        }
        Question::Open => {
            let (answer, blocks) = open(alloc, &event.body, last_rev(&inquiry.repo))?;
            answers.opened = Some(answer);
            *read = blocks;
        }
        Question::Verdict => {
            let good = judge(event, read, judges)?;
            answers.verdict = Some(good);
        }
        Question::Link => {
            let follows = follow(alloc, event, read, &inquiry.repo)?;
            answers.linked = Some(follows);
        }
        Question::Fetch => unreachable!(),
    }
    Ok(())
}

/// Asks all that is to be known of an event before it is decided, or before its account's repository is fetched.
pub(crate) fn ask_all<P: Judges, C: Clock>(
    alloc: Global,
    core: &Core,
    host: &str,
    event: &Event,
    judges: &mut P,
    clock: &mut C,
) -> Result<(Next, Answers), StepFault>
    requires did { IsTrue (is_did event.now.did) }
    ensures asked { IfOk result (λ x. AreAskedAbout C.tells core.now host.now event.now x.1
        (P.panel judges.old) (C.moments clock.old) (P.panel judges.new) (C.moments clock.new)) }
    ensures next { IfOk result (λ x. x.0 ≡ next_about core.now host.now event.now x.1) }
    ensures last { IfOk result (λ x. is_last x.0 ≡ true) }
    ensures in_vain { OnErr result
        (AskedInVain (P.panel judges.old) event.now.did (P.panel judges.new)) }
    ensures moments { OnErr result (IsTrue C.tells
        → OneTaken (C.moments clock.old) (C.moments clock.new)) }
    ensures caused { IfErr result
        (IsCause ⊥ (IsSpentFor core.now host.now (Ok (AFrame.Event event.now))
        (P.panel judges.new)) ⊥ (Rose (C.faults clock.old) (C.faults clock.new))) }
    ensures counts { C.faults clock.old ≤ C.faults clock.new }
    ensures unspent { result ≢ Err StepFault.Authority
        → SpendsNone (P.panel judges.old) (P.panel judges.new) }
    ensures steady { result ≢ Err StepFault.Clock → C.faults clock.new ≡ C.faults clock.old }
{
    let account = account_of(core, event);
    let cursor = core.cursor(host);
    let len = out_len(event);
    let inquiry = Inquiry {
        core,
        host,
        event,
        repo: repo_in(account),
    };
    let mut answers = Answers::new();
    let mut read = Read::Nothing;
    'asking: loop {
        match next_for_event_of_len(cursor, account, event, len, &answers) {
            Next::Ask(question) => {
                if is_fetch(question) {
                    return Ok((Next::Ask(question), answers));
                }
                match ask_one(
                    alloc,
                    &inquiry,
                    question,
                    &mut answers,
                    &mut read,
                    judges,
                    clock,
                ) {
                    Ok(()) => {}
                    Err(fault) => return Err(fault),
                }
            }
            next => return Ok((next, answers)),
        }
    }
}
