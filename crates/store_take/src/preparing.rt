//! One message decided, and its row taken, ahead of the disk.

ghost use Rattle.std.specs.Prelude.{◌≡◌, ◌≢◌, ◌≤◌, ◌<◌, length, IsTrue, IfOk, IfErr, OnOk, OnErr, Some, Result, Err};
ghost use Rattle.at_cid.specs.Counts.{Rose};
ghost use Rattle.at_event.specs.declared.frame.Frame.{Frame as TheFrame};
ghost use Rattle.at_event.specs.declared.frame.FrameFault.{FrameFault as TheFrameFault};
ghost use Rattle.at_syntax.specs.Host.{is_host};
ghost use Rattle.gate_log.specs.declared.pending_bodies.TheConstants.{AHEAD};
ghost use Rattle.relay_row.specs.declared.limits.TheConstants.{MOST_ROWS};
ghost use Rattle.relay_step.specs.Around.{SameAsked, around_of};
ghost use Rattle.relay_step.specs.Causes.{SpendsNone};
ghost use Rattle.relay_step.specs.Messages.{IsSkippedAs, told_as};
ghost use Rattle.relay_step.specs.Steps.{rows_decided};
ghost use Rattle.relay_store.specs.PendingBodies.{Fits, IsUnchanged};
ghost use Rattle.relay_store.specs.Faults.{IsRisen};
ghost use Rattle.store_take.specs.Outcomes.{fetch_in, outcome_skipped, outcome_decided, taken_outcome};
ghost use Rattle.store_take.specs.Taking.{AreAdded, IsTooLate, Prepared};

use crate::adding::add_new_row;
use crate::fault::of_step;
use crate::message::MessageRef;
use crate::outcome::{End, Fetch, Outcome};
use at_authority::Judges;
use event_window::Window;
use gate_log::Log;
use relay_core::Core;
use relay_io::{Clock, Repos};
use relay_row::{Fetched, Taken};
use relay_step::{Asked, Decided, Skipped, decide_message};
use relay_store::{Pending, StoreFault};
use std::alloc::Global;

fn fetch_of(fetched: &Fetched) -> Fetch
    ensures { result ≡ fetch_in fetched.now }
{
    match fetched {
        Fetched::NotAsked => Fetch::NotAsked,
        Fetched::Absent => Fetch::Absent,
        Fetched::Refused(number) => Fetch::Refused(*number),
        Fetched::Whole(whole) => Fetch::Whole(whole.seq, whole.records),
    }
}

// What is answered to a message that makes this row.
fn outcome_of_taken(taken: &Taken) -> Outcome
    ensures { result ≡ taken_outcome taken.now }
{
    match taken.refusal {
        Some(refusal) => Outcome::Refused(taken.host_seq, refusal, fetch_of(&taken.fetched)),
        None if taken.seq == 0 => Outcome::Held(taken.host_seq),
        None => Outcome::Event(taken.host_seq, taken.seq),
    }
}

// What is answered to a message that makes no row.
fn outcome_of_skipped(why: Skipped) -> Outcome
    ensures { result ≡ outcome_skipped why }
{
    match why {
        Skipped::Old(seq) => Outcome::Old(seq),
        Skipped::Unknown => Outcome::Unknown,
        Skipped::Info => Outcome::Info,
        Skipped::BadFrame => Outcome::Ended(End::BadFrame),
        Skipped::NoSeq => Outcome::Ended(End::NoSeq),
        Skipped::Error => Outcome::Ended(End::Error),
    }
}

// Takes what came of a message: its row, if it makes one, is applied and goes into the body under way.
fn take_decided(
    alloc: Global,
    log: &Log,
    core: &mut Core,
    window: &mut Window,
    pending: &mut Pending,
    told: Decided,
) -> Result<Outcome, StoreFault>
    requires few { pending.old.count < MOST_ROWS }
    requires begun { AHEAD ≤ length pending.old.body }
    requires fits { Fits log.now pending.old }
    ensures begun { AHEAD ≤ length pending.new.body }
    ensures fits { Fits log.now pending.new }
    ensures ok { IfOk result (λ o. (frame : Result TheFrame TheFrameFault) → IsSkippedAs frame told
        → outcome_decided frame (told_as told) ≡ Some o) }
    ensures added { OnOk result (AreAdded log.now.end
        (rows_decided (told_as told)) core.old core.new window.old.places window.new.places
        pending.old pending.new) }
    ensures as_before { OnErr result (IsUnchanged core.old core.new
        window.old.places window.new.places pending.old pending.new) }
    ensures late { IfErr result (IsTooLate log.now pending.old (told_as told)) }
{
    match told {
        Decided::Skipped(why) => Ok(outcome_of_skipped(why)),
        Decided::Recorded(new_row) => {
            let outcome = outcome_of_taken(new_row.parts());
            match add_new_row(alloc, log, core, window, pending, new_row) {
                Ok(()) => Ok(outcome),
                Err(fault) => Err(fault),
            }
        }
    }
}

/// Decides a message. Its row, if it makes one, is applied and goes into the body under way.
pub(crate) fn prepare<P: Judges, R: Repos, C: Clock>(
    alloc: Global,
    log: &Log,
    core: &mut Core,
    window: &mut Window,
    pending: &mut Pending,
    message: MessageRef<'_>,
    asked: &mut Asked<P, R, C>,
) -> Result<Outcome, StoreFault>
    requires host { IsTrue (is_host message.host.now) }
    requires few { pending.old.count < MOST_ROWS }
    requires begun { AHEAD ≤ length pending.old.body }
    requires fits { Fits log.now pending.old }
    ensures begun { AHEAD ≤ length pending.new.body }
    ensures fits { Fits log.now pending.new }
    ensures prepared { let old = around_of P.panel C.moments R.repository asked.old in
        let new = around_of P.panel C.moments R.repository asked.new in
        Prepared C.tells R.tells log.now message.entry.host.now message.entry.bytes.now
        core.old core.new window.old.places window.new.places pending.old pending.new
        old new result }
    ensures risen { IfErr result
        (IsRisen (Rose (R.faults asked.old.repos.now) (R.faults asked.new.repos.now))
        (Rose (C.faults asked.old.clock.now) (C.faults asked.new.clock.now))) }
    ensures clock_counts { C.faults asked.old.clock.now ≤ C.faults asked.new.clock.now }
    ensures repos_count { R.faults asked.old.repos.now ≤ R.faults asked.new.repos.now }
    ensures clock_steady { result ≢ Err StoreFault.Clock
        → C.faults asked.new.clock.now ≡ C.faults asked.old.clock.now }
    ensures repos_steady { result ≢ Err StoreFault.Repos
        → R.faults asked.new.repos.now ≡ R.faults asked.old.repos.now }
    ensures unspent { result ≢ Err StoreFault.Authority
        → SpendsNone (P.panel asked.old.judges.now) (P.panel asked.new.judges.now) }
    ensures same { SameAsked asked.old asked.new }
{
    match decide_message(alloc, core, message.host, message.bytes, asked) {
        Ok(told) => take_decided(alloc, log, core, window, pending, told),
        Err(fault) => Err(of_step(fault)),
    }
}
