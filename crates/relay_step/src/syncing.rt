//! An account synchronized at an operator's command.

ghost use Rattle.std.specs.Prelude.{◌≡◌, ◌≢◌, ◌≤◌, length, Err, IsTrue, IfOk, IfErr, OnErr};
ghost use Rattle.at_cid.specs.Counts.{Rose};
ghost use Rattle.at_syntax.specs.Did.{is_did};
ghost use Rattle.at_form.specs.declared.forms.TheConstants.{LONGEST_SHORT_TEXT};
ghost use Rattle.relay_step.specs.Asked.{AskedInVain};
ghost use Rattle.relay_step.specs.Around.{SameAsked, around_of};
ghost use Rattle.relay_step.specs.Causes.{CameToNothing, IsCause, SpendsNone};
ghost use Rattle.relay_step.specs.Messages.{KeepsJournal};
ghost use Rattle.relay_step.specs.Commands.{EndsFetched, SpentFetching, SyncedAt, rows_commanded};

use crate::asked::Asked;
use crate::asking::repo_of;
use crate::command::CommandAnswer;
use crate::fault::StepFault;
use crate::fetching::{fetch, make};
use crate::outside::ask_moment;
use crate::reading::last_rev;
use at_authority::Judges;
use at_cid::{Words, ghost_text};
use relay_core::{Core, fetch_refusal};
use relay_io::{Clock, Repos};
use relay_law::synced_rows_are_formed;
use relay_row::{Fetched, Row};
use std::alloc::Global;

/// Fetches an account's repository and takes it over: the clock is asked first. `time` is that of the event by which this
/// goes out.
pub fn sync_now<P: Judges, R: Repos, C: Clock>(
    alloc: Global,
    core: &Core,
    did: &str,
    time: &str,
    asked: &mut Asked<P, R, C>,
) -> Result<CommandAnswer, StepFault>
    requires did { IsTrue (is_did did.now) }
    requires time { length time.now ≤ LONGEST_SHORT_TEXT }
    ensures synced { let old = around_of P.panel C.moments R.repository asked.old in
        let new = around_of P.panel C.moments R.repository asked.new in
        IfOk result (λ command.
        SyncedAt C.tells R.tells core.now did.now time.now old command new) }
    ensures formed { IfOk result (λ command. KeepsJournal core.now (rows_commanded command)) }
    ensures in_vain { let old = around_of P.panel C.moments R.repository asked.old in
        let new = around_of P.panel C.moments R.repository asked.new in
        OnErr result (CameToNothing C.tells R.tells
        (AskedInVain old.panel did.now new.panel) old new) }
    ensures caused { let old = around_of P.panel C.moments R.repository asked.old in
        let new = around_of P.panel C.moments R.repository asked.new in
        IfErr result
        (IsCause (EndsFetched C.tells R.tells core.now did.now old new)
        (SpentFetching C.tells R.tells core.now did.now old new)
        (Rose (R.faults asked.old.repos.now) (R.faults asked.new.repos.now))
        (Rose (C.faults asked.old.clock.now) (C.faults asked.new.clock.now))) }
    ensures clock_counts { C.faults asked.old.clock.now ≤ C.faults asked.new.clock.now }
    ensures repos_count { R.faults asked.old.repos.now ≤ R.faults asked.new.repos.now }
    ensures unspent { result ≢ Err StepFault.Authority
        → SpendsNone (P.panel asked.old.judges.now) (P.panel asked.new.judges.now) }
    ensures clock_steady { result ≢ Err StepFault.Clock
        → C.faults asked.new.clock.now ≡ C.faults asked.old.clock.now }
    ensures repos_steady { result ≢ Err StepFault.Repos
        → R.faults asked.new.repos.now ≡ R.faults asked.old.repos.now }
    ensures same { SameAsked asked.old asked.new }
{
    let moment = ask_moment(asked.clock)?;
    if let Some(refusal) = core.sync_refusal(did) {
        return Ok(CommandAnswer::Refused(refusal));
    }
    let least = last_rev(&repo_of(core, did));
    let found = fetch(alloc, did, least, moment, asked.judges, asked.repos)?;
    let fetched = make(alloc, core, did, time, found)?;
    if let Some(refusal) = fetch_refusal(&fetched) {
        return Ok(CommandAnswer::Refused(refusal));
    }
    let Fetched::Whole(whole) = fetched else {
        unreachable!()
    };
    synced_rows_are_formed();
    ghost_text(did);
    let did = Words::from_str(alloc, did)?;
    Ok(CommandAnswer::Made(Row::Synced(did, whole, Some(moment))))
}
