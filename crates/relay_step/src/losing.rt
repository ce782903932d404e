//! An event whose refusal loses its account: the account's repository is fetched.

ghost use Rattle.std.specs.Prelude.{◌≡◌, ◌≢◌, ◌≤◌, length, Some, Err, IsTrue, IfOk, IfErr, OnErr};
ghost use Rattle.at_cid.specs.Counts.{Rose};
ghost use Rattle.at_syntax.specs.Did.{is_did, method_of};
ghost use Rattle.at_form.specs.declared.forms.TheConstants.{LONGEST_SHORT_TEXT};
ghost use Rattle.at_authority.specs.Panels.{IsSpent};
ghost use Rattle.at_event.specs.declared.frame.Frame.{Frame as AFrame};
ghost use Rattle.relay_core.specs.Entries.{account_in, cursor_in};
ghost use Rattle.relay_core.specs.Table.{next_of};
ghost use Rattle.relay_core.specs.declared.answers.Question.{Question as AQuestion};
ghost use Rattle.relay_core.specs.declared.decision.Next.{Next as ANext};
ghost use Rattle.relay_step.specs.Around.{SameRepositories};
ghost use Rattle.relay_step.specs.Causes.{IsCause, SpendsNone};
ghost use Rattle.relay_step.specs.Fetches.{AskedPlain};
ghost use Rattle.relay_step.specs.Taking.{LostEnds, LostRecorded};

use crate::asking::repo_of;
use crate::decided::Decided;
use crate::fault::StepFault;
use crate::fetching::{fetch, make};
use crate::reading::last_rev;
use crate::taking::take;
use at_authority::Judges;
use at_event::Event;
use relay_core::{Answers, Core, Next};
use relay_io::Repos;
use std::alloc::Global;

/// The row of an event behind whose refusal its account's repository is fetched.
pub(crate) fn take_lost<P: Judges, R: Repos>(
    alloc: Global,
    core: &Core,
    host: &str,
    event: Event,
    mut answers: Answers,
    judges: &mut P,
    repos: &mut R,
) -> Result<Decided, StepFault>
    requires did { IsTrue (is_did event.did) }
    requires time { length event.time ≤ LONGEST_SHORT_TEXT }
    requires asks { next_of (cursor_in core.now host.now) (account_in core.now event.did)
        (AFrame.Event event) answers ≡ ANext.Ask AQuestion.Fetch }
    ensures recorded { IfOk result (λ told.
        LostRecorded R.tells core.now host.now event answers told (P.panel judges.old)
        (R.repository repos.old) (P.panel judges.new)) }
    ensures same { IsTrue R.tells → SameRepositories (R.repository repos.old)
        (R.repository repos.new) }
    ensures in_vain { OnErr result
        (AskedPlain (P.panel judges.old) event.did (P.panel judges.new)) }
    ensures caused { IfErr result
        (IsCause (LostEnds R.tells core.now event answers (P.panel judges.old)
        (R.repository repos.old) (P.panel judges.new))
        (IsSpent (P.panel judges.new (method_of event.did)))
        (Rose (R.faults repos.old) (R.faults repos.new)) ⊥) }
    ensures counts { R.faults repos.old ≤ R.faults repos.new }
    ensures unspent { result ≢ Err StepFault.Authority
        → SpendsNone (P.panel judges.old) (P.panel judges.new) }
    ensures steady { result ≢ Err StepFault.Repos → R.faults repos.new ≡ R.faults repos.old }
{
    let did = event.did.as_str();
    let Some(moment) = answers.moment else {
        unreachable!()
    };
    let found = fetch(
        alloc,
        did,
        last_rev(&repo_of(core, did)),
        moment,
        judges,
        repos,
    )?;
    let fetched = make(alloc, core, did, event.time.as_str(), found)?;
    answers.fetched = Some(fetched);
    let Next::Done(decision) = core.next_for_event(host, &event, &answers) else {
        unreachable!()
    };
    take(alloc, core, host, event, &decision, answers)
}
