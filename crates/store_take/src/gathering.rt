//! Messages taken one after another, ahead of the disk.

ghost use Rattle.std.specs.Prelude.{◌≡◌, ◌≢◌, ◌≤◌, ◌<◌, [], ℕ, List, length, IfSome, Some};
ghost use Rattle.at_authority.specs.Panels.{IsSpent};
ghost use Rattle.at_cid.specs.Counts.{Rose};
ghost use Rattle.relay_row.specs.declared.limits.TheConstants.{MOST_ROWS};
ghost use Rattle.relay_step.specs.Around.{SameAsked, around_of};
ghost use Rattle.relay_step.specs.Causes.{SpendsNone};
ghost use Rattle.store_take.specs.Batches.{is_end};
ghost use Rattle.relay_store.specs.PendingBodies.{HasRows};
ghost use Rattle.relay_store.specs.Faults.{IsRisen};
ghost use Rattle.store_take.specs.Taking.{Stopped, AreOfHosts};

use crate::batch::Batch;
use crate::message::{Message, MessageRef};
use crate::outcome::Outcome;
use crate::preparing::prepare;
use at_authority::Judges;
use event_window::Window;
use gate_log::Log;
use relay_core::Core;
use relay_io::{Clock, Repos};
use relay_step::Asked;
use relay_store::{Pending, StoreFault};
use std::alloc::Global;

// Whether a host has ended with this.
fn is_end(outcome: &Outcome) -> bool
    ensures { result ≡ is_end outcome.now }
{
    match outcome {
        Outcome::Ended(_) => true,
        _ => false,
    }
}

/// Takes messages in order, ahead of the disk, up to the end of a host or to the first fault, which it answers.
pub(crate) fn gather<P: Judges, R: Repos, C: Clock>(
    alloc: Global,
    log: &Log,
    core: &mut Core,
    window: &mut Window,
    pending: &mut Pending,
    group: &[Message],
    asked: &mut Asked<P, R, C>,
) -> Batch
    requires rows { HasRows [] pending.old }
    requires few { length group.now ≤ MOST_ROWS }
    requires hosts { AreOfHosts group.now }
    ensures stopped { let old = around_of P.panel C.moments R.repository asked.old in
        let new = around_of P.panel C.moments R.repository asked.new in
        Stopped C.tells R.tells log.now group.now core.old core.new
        window.old.places window.new.places pending.new
        old new result.outcomes.items result.fault }
    ensures risen { IfSome result.fault
        (IsRisen (Rose (R.faults asked.old.repos.now) (R.faults asked.new.repos.now))
        (Rose (C.faults asked.old.clock.now) (C.faults asked.new.clock.now))) }
    ensures no_disk { result.fault ≡ Some StoreFault.Disk → ⊥ }
    ensures clock_counts { C.faults asked.old.clock.now ≤ C.faults asked.new.clock.now }
    ensures repos_count { R.faults asked.old.repos.now ≤ R.faults asked.new.repos.now }
    ensures clock_steady { result.fault ≢ Some StoreFault.Clock
        → C.faults asked.new.clock.now ≡ C.faults asked.old.clock.now }
    ensures repos_steady { result.fault ≢ Some StoreFault.Repos
        → R.faults asked.new.repos.now ≡ R.faults asked.old.repos.now }
    ensures unspent { result.fault ≢ Some StoreFault.Authority
        → SpendsNone (P.panel asked.old.judges.now) (P.panel asked.new.judges.now) }
    ensures spent { result.fault ≡ Some StoreFault.Authority
        → (method : List ℕ) × IsSpent (P.panel asked.new.judges.now method) }
    ensures same { SameAsked asked.old asked.new }
{
    let mut outcomes = Vec::new(alloc);
    'group: for message in group {
        if outcomes.reserve(1).is_err() {
            return Batch {
                outcomes,
                fault: Some(StoreFault::Memory),
            };
        }
        let host = message.host.as_str();
        let bytes = message.bytes.as_slice();
        let lent = MessageRef { host, bytes };
        let outcome = match prepare(alloc, log, core, window, pending, lent, asked) {
            Ok(outcome) => outcome,
            Err(fault) => {
                return Batch {
                    outcomes,
                    fault: Some(fault),
                };
            }
        };
        outcomes.push_reserved(outcome);
        if is_end(&outcome) {
            return Batch {
                outcomes,
                fault: None,
            };
        }
    }
    Batch {
        outcomes,
        fault: None,
    }
}
