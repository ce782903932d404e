//! An event's blocks, read once: what is opened, what is judged, and what follows.

ghost use Rattle.std.specs.Prelude.{◌≡◌, ◌≢◌, true, Err, IsTrue, IfOk, IfErr, OnErr, Some};
ghost use Rattle.at_syntax.specs.Did.{is_did, method_of};
ghost use Rattle.at_authority.specs.Calls.{IsCall, AreCalls, fails};
ghost use Rattle.at_authority.specs.Panels.{IsSpent};
ghost use Rattle.account_state.specs.Folds.{last_rev};
ghost use Rattle.relay_law.specs.Formed.{IsOpenedAs};
ghost use Rattle.relay_law.specs.Right.{expect_of};
ghost use Rattle.relay_step.specs.Asked.{signed_by, verdict_call};
ghost use Rattle.relay_step.specs.Causes.{IsCause, SpendsNone};
ghost use Rattle.relay_step.specs.Questions.{IsLinkAnswer, IsReadFor, IsReadOf, is_commit};
ghost use Rattle.at_event.specs.Bodies.{has_blocks};
ghost use Rattle.relay_step.specs.declared.fault.StepFault.{StepFault as Fault};

use crate::fault::StepFault;
use crate::outside::ask_verdict;
use account_state::Repo;
use at_authority::Judges;
use at_event::{Body, Event, Head, Refusal};
use at_syntax::Tid;
use commit_check::{CheckFault, Expect, Opened, link, open_commit};
use repo_sync::{Found, OpenFault, check_sync};
use std::alloc::Global;

/// What was read of an event's blocks.
#[derive(Drop)]
pub(crate) enum Read {
    /// Nothing.
    Nothing,
    /// A commit and its blocks.
    Commit(Opened),
    /// The commit of a `#sync`.
    Sync(Found),
}

/// Opens an event that has blocks, beside the last revision of its account.
pub(crate) fn open(
    alloc: Global,
    body: &Body,
    last: Option<Tid>,
) -> Result<(Result<Head, Refusal>, Read), StepFault>
    requires { has_blocks body.now ≡ true }
    ensures answer { IfOk result (λ x. IsOpenedAs body.now last x.0) }
    ensures read { IfOk result (λ x. IsReadFor body.now (Some x.0) x.1) }
    ensures memory { IfErr result (λ fault. fault ≡ Fault.Memory) }
{
    match body {
        Body::Commit(commit) => match open_commit(alloc, commit.get(), last) {
            Ok(opened) => Ok((Ok(opened.head), Read::Commit(opened))),
            Err(CheckFault::Refused(refusal)) => Ok((Err(refusal), Read::Nothing)),
            Err(CheckFault::Memory) => Err(StepFault::Memory),
        },
        Body::Sync(sync) => match check_sync(alloc, sync, last) {
            Ok(found) => Ok((Ok(found.head), Read::Sync(found))),
            Err(OpenFault::Refused(refusal)) => Ok((Err(refusal), Read::Nothing)),
            Err(OpenFault::Memory) => Err(StepFault::Memory),
        },
        Body::Identity | Body::Account(_) => unreachable!(),
    }
}

/// Whether the signature of what was read is good for the event's account.
pub(crate) fn judge<P: Judges>(
    event: &Event,
    read: &Read,
    judges: &mut P,
) -> Result<bool, StepFault>
    requires did { IsTrue (is_did event.now.did) }
    requires read { IsReadOf event.now.body read.now }
    ensures calls { IfOk result (λ good.
        AreCalls (P.panel judges.old) (verdict_call event.now.did (signed_by event.now.body) good)
        (P.panel judges.new)) }
    ensures failed { OnErr result
        (IsCall (fails event.now.did) (P.panel judges.old) (P.panel judges.new)) }
    ensures caused { IfErr result
        (IsCause ⊥ (IsSpent (P.panel judges.new (method_of event.now.did))) ⊥ ⊥) }
    ensures unspent { result ≢ Err StepFault.Authority
        → SpendsNone (P.panel judges.old) (P.panel judges.new) }
{
    match (&event.body, read) {
        (Body::Commit(_), Read::Commit(opened)) => ask_verdict(
            judges,
            event.did.as_str(),
            &opened.digest,
            opened.sig.as_slice(),
        ),
        (Body::Sync(_), Read::Sync(found)) => ask_verdict(
            judges,
            event.did.as_str(),
            &found.digest,
            found.sig.as_slice(),
        ),
        _ => unreachable!(),
    }
}

/// The revision of the newest commit that is known of a repository.
pub(crate) fn last_rev(repo: &Repo) -> Option<Tid>
    ensures { result ≡ last_rev repo.now }
{
    match repo {
        Repo::Missing => None,
        Repo::Good(head) => Some(head.rev),
        Repo::Lost(rev) => *rev,
    }
}

fn expect_of(repo: &Repo) -> Expect
    ensures { result ≡ expect_of repo.now }
{
    match repo {
        Repo::Missing => Expect::Start,
        Repo::Good(head) => Expect::After(*head),
        Repo::Lost(_) => Expect::Lost,
    }
}

/// Whether a commit that was opened follows what is known of its account's repository.
pub(crate) fn follow(
    alloc: Global,
    event: &Event,
    read: &Read,
    repo: &Repo,
) -> Result<Result<(), Refusal>, StepFault>
    requires commit { is_commit event.now.body ≡ true }
    requires read { IsReadOf event.now.body read.now }
    ensures answer { IfOk result (IsLinkAnswer repo.now event.now) }
    ensures memory { IfErr result (λ fault. fault ≡ Fault.Memory) }
{
    let (Body::Commit(commit), Read::Commit(opened)) = (&event.body, read) else {
        unreachable!()
    };
    event.ghost_event();
    match link(alloc, commit.get(), opened, &expect_of(repo)) {
        Ok(()) => Ok(Ok(())),
        Err(CheckFault::Refused(refusal)) => Ok(Err(refusal)),
        Err(CheckFault::Memory) => Err(StepFault::Memory),
    }
}
