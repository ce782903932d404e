//! The fetch of an account's repository.

ghost use Rattle.std.specs.Prelude.{◌≡◌, ◌≢◌, ◌+◌, ◌≤◌, ◌<◌, ℕ, Option, Some, Err, true, false, IsTrue, IfOk, IfErr, OnOk, OnErr};
ghost use Rattle.at_cid.specs.Counts.{Rose};
ghost use Rattle.at_syntax.specs.Did.{is_did, method_of};
ghost use Rattle.at_authority.specs.Panels.{IsSpent};
ghost use Rattle.at_car.specs.Blocks.{IsLinkOf};
ghost use Rattle.relay_row.specs.Rules.{is_message};
ghost use Rattle.at_cid.specs.declared.limits.TheConstants.{NUMBERS};
ghost use Rattle.relay_core.specs.Decide.{is_found, whole_under, is_ahead};
ghost use Rattle.relay_step.specs.Around.{SameRepositories};
ghost use Rattle.relay_step.specs.Causes.{IsCause, SpendsNone};
ghost use Rattle.relay_step.specs.Commands.{IsJudged};
ghost use Rattle.relay_step.specs.Fetches.{AskedPlain, IsJudgedAs, IsOfBytes, IsSent, IsTyped, MayBeKept, found_as, judged_as, made_of, refused_as};
ghost use Rattle.relay_step.specs.Fetching.{AnsweredFetch, told_where};
ghost use Rattle.relay_step.specs.declared.fault.StepFault.{StepFault as Fault};

use crate::fault::StepFault;
use crate::outside::ask_verdict;
use crate::taking::is_full;
use at_authority::Judges;
use at_car::{Blocks, write};
use at_cid::{ghost_bytes, ghost_text};
use at_event::sync_frame;
use at_syntax::Tid;
use relay_core::{Core, FETCHED_AHEAD, FETCHED_UNSIGNED, is_ahead};
use relay_io::{Repos, ReposFault};
use relay_row::{Fetched, Whole};
use repo_sync::{Found, RepoFault, check_repo};
use std::alloc::Global;

/// What a fetch found.
#[derive(Drop)]
pub(crate) enum FoundRepo {
    /// There is no repository.
    Absent,
    /// The repository is refused, with this number.
    Refused(u8),
    /// It may be taken over.
    Fit(Found),
}

/// Judges a repository that was found whole: its revision against the moment first, and then its signature. The number with
/// which it is refused, if it is.
fn judge_found<P: Judges>(
    did: &str,
    moment: u64,
    found: &Found,
    judges: &mut P,
) -> Result<Option<u8>, StepFault>
    requires did { IsTrue (is_did did.now) }
    requires whole { (least : Option ℕ) × IsOfBytes did.now least found.now }
    requires records { found.now.records < NUMBERS }
    ensures judged { IfOk result (λ number. IsJudgedAs did.now moment found.now
        (judged_as found.now number) (P.panel judges.old) (P.panel judges.new)) }
    ensures may { IfOk result (λ number. MayBeKept (judged_as found.now number)) }
    ensures in_vain { OnErr result (AskedPlain (P.panel judges.old) did.now (P.panel judges.new)) }
    ensures caused { IfErr result (IsCause ⊥ ((is_ahead found.now.head.rev (Some moment) ≡ false)
        × IsSpent (P.panel judges.new (method_of did.now))) ⊥ ⊥) }
    ensures unspent { result ≢ Err StepFault.Authority
        → SpendsNone (P.panel judges.old) (P.panel judges.new) }
{
    found.head.rev.ghost_value();
    if is_ahead(found.head.rev, Some(moment)) {
        return Ok(Some(FETCHED_AHEAD));
    }
    match ask_verdict(judges, did, &found.digest, found.sig.as_slice()) {
        Ok(true) => Ok(None),
        Ok(false) => Ok(Some(FETCHED_UNSIGNED)),
        Err(fault) => Err(fault),
    }
}

/// The number with which a repository is refused, unless memory ran out or a read failed.
fn refused_number(fault: &RepoFault) -> Option<u8>
    ensures { result ≡ refused_as fault.now }
{
    match fault {
        RepoFault::Memory | RepoFault::Failed => None,
        RepoFault::BadCar
        | RepoFault::NoCommit
        | RepoFault::BadCommit
        | RepoFault::OtherDid
        | RepoFault::Lagging(_)
        | RepoFault::NotWhole(_)
        | RepoFault::BadNode(_)
        | RepoFault::TooLong
        | RepoFault::BadSignature => Some(fault.number()),
    }
}

/// Fetches the repository of an account, whose revision isn't to be below the least, at a moment.
pub(crate) fn fetch<P: Judges, R: Repos>(
    alloc: Global,
    did: &str,
    least: Option<Tid>,
    moment: u64,
    judges: &mut P,
    repos: &mut R,
) -> Result<FoundRepo, StepFault>
    requires did { IsTrue (is_did did.now) }
    ensures fetched { IfOk result (λ fetch.
        AnsweredFetch (told_where R.tells (R.repository repos.old did.now)) did.now least moment
        (P.panel judges.old) (found_as fetch) (P.panel judges.new)) }
    ensures may { IfOk result (λ fetch. MayBeKept (found_as fetch)) }
    ensures same { IsTrue R.tells → SameRepositories (R.repository repos.old)
        (R.repository repos.new) }
    ensures in_vain { OnErr result (AskedPlain (P.panel judges.old) did.now (P.panel judges.new)) }
    // No authority is left only where one is asked.
    ensures caused { IfErr result
        (IsCause ⊥ ((IsTrue R.tells → IsJudged
        (R.repository repos.old did.now) did.now least moment)
        × IsSpent (P.panel judges.new (method_of did.now)))
        (Rose (R.faults repos.old) (R.faults repos.new)) ⊥) }
    ensures counts { R.faults repos.old ≤ R.faults repos.new }
    ensures unspent { result ≢ Err StepFault.Authority
        → SpendsNone (P.panel judges.old) (P.panel judges.new) }
    ensures steady { result ≢ Err StepFault.Repos → R.faults repos.new ≡ R.faults repos.old }
{
    match repos.open(did) {
        Ok(true) => {}
        Ok(false) => return Ok(FoundRepo::Absent),
        Err(ReposFault::Failed) => return Err(StepFault::Repos),
        Err(ReposFault::Memory) => return Err(StepFault::Memory),
    }
    match check_repo(alloc, repos, did, least) {
        Ok(found) => match judge_found(did, moment, &found, judges) {
            Ok(None) => Ok(FoundRepo::Fit(found)),
            Ok(Some(number)) => Ok(FoundRepo::Refused(number)),
            Err(fault) => Err(fault),
        },
        Err(RepoFault::Failed) => Err(StepFault::Repos),
        Err(fault) => match refused_number(&fault) {
            Some(number) => Ok(FoundRepo::Refused(number)),
            None => Err(StepFault::Memory),
        },
    }
}

/// A repository that was fetched, taken over under the number behind the last one. Of the event by which this goes out,
/// the time is `time`, and the commit block is the one block.
fn take_over(
    alloc: Global,
    last: u64,
    did: &str,
    time: &str,
    found: &Found,
) -> Result<Whole, StepFault>
    requires number { last + 1 < NUMBERS }
    requires linked { IsLinkOf found.now.head.commit found.now.block }
    ensures whole { IfOk result (λ whole. whole
        ≡ whole_under did.now time.now found.now.head found.now.records found.now.block
        (last + 1)) }
    ensures typed { OnOk result (IsTyped did.now time.now found.now.head found.now.block) }
    ensures message { IfOk result (λ whole. is_message whole.message ≡ true) }
    ensures memory { IfErr result (λ fault. fault ≡ Fault.Memory) }
{
    let head = found.head;
    let mut blocks = Blocks::new(alloc);
    blocks.put(head.commit, found.block.as_slice())?;
    let car = write(alloc, &head.commit, &blocks)?;
    let message = sync_frame(alloc, did, head.rev, car.as_slice(), time, last + 1)?;
    ghost_text(did);
    ghost_text(time);
    ghost_bytes(car.as_slice());
    ghost_bytes(message.as_slice());
    head.rev.ghost_value();
    Ok(Whole {
        seq: last + 1,
        head,
        records: found.records,
        message,
    })
}

/// What a fetch comes to in a row, under the number behind the last one where it takes one.
pub(crate) fn make(
    alloc: Global,
    core: &Core,
    did: &str,
    time: &str,
    found: FoundRepo,
) -> Result<Fetched, StepFault>
    requires may { MayBeKept (found_as found) }
    ensures made { IfOk result (λ fetched. fetched
        ≡ made_of core.now.last did.now time.now (found_as found)) }
    ensures sent { OnOk result (IsSent core.now.last did.now time.now (found_as found)) }
    ensures caused { IfErr result (IsCause ((NUMBERS ≤ core.now.last + 1)
        × (is_found (found_as found) ≡ true)) ⊥ ⊥ ⊥) }
{
    match found {
        FoundRepo::Absent => Ok(Fetched::Absent),
        FoundRepo::Refused(number) => Ok(Fetched::Refused(number)),
        FoundRepo::Fit(found) => {
            if is_full(core) {
                return Err(StepFault::SeqEnd);
            }
            let whole = take_over(alloc, core.last_seq(), did, time, &found)?;
            Ok(Fetched::Whole(whole))
        }
    }
}
