//! The judges and the clock, asked once each.

ghost use Rattle.std.specs.Prelude.{◌≡◌, ◌≢◌, ◌≤◌, ◌<◌, Err, IsTrue, IfOk, IfErr, OnErr};
ghost use Rattle.at_cid.specs.Counts.{Rose};
ghost use Rattle.at_syntax.specs.Did.{is_did, method_of};
ghost use Rattle.at_authority.specs.Calls.{IsCall, answers, refreshes};
ghost use Rattle.at_authority.specs.Panels.{IsSpent};
ghost use Rattle.at_authority.specs.Queries.{asks_home, asks_verdict};
ghost use Rattle.at_cid.specs.declared.limits.TheConstants.{NUMBERS};
ghost use Rattle.relay_step.specs.Causes.{IsCause, SpendsNone, called};
ghost use Rattle.relay_step.specs.Commands.{IsNow};

use crate::fault::StepFault;
use at_authority::{JudgeFault, Judges};
use relay_io::Clock;

/// Whether a host is the home of an account.
pub(crate) fn ask_home<P: Judges>(judges: &mut P, did: &str, host: &str) -> Result<bool, StepFault>
    requires { IsTrue (is_did did.now) }
    ensures call { IsCall (called did.now (answers (asks_home did.now host.now)) result)
        (P.panel judges.old) (P.panel judges.new) }
    ensures caused { IfErr result
        (IsCause ⊥ (IsSpent (P.panel judges.new (method_of did.now))) ⊥ ⊥) }
    ensures unspent { result ≢ Err StepFault.Authority
        → SpendsNone (P.panel judges.old) (P.panel judges.new) }
{
    match judges.home(did, host) {
        Ok(is_home) => Ok(is_home),
        Err(JudgeFault::NoneLeft) => Err(StepFault::Authority),
        Err(JudgeFault::Memory) => Err(StepFault::Memory),
    }
}

/// Whether the signature under a digest is good for an account.
pub(crate) fn ask_verdict<P: Judges>(
    judges: &mut P,
    did: &str,
    digest: &[u8; 32],
    sig: &[u8],
) -> Result<bool, StepFault>
    requires { IsTrue (is_did did.now) }
    ensures call { IsCall (called did.now
        (answers (asks_verdict did.now digest.now sig.now)) result) (P.panel judges.old)
        (P.panel judges.new) }
    ensures caused { IfErr result
        (IsCause ⊥ (IsSpent (P.panel judges.new (method_of did.now))) ⊥ ⊥) }
    ensures unspent { result ≢ Err StepFault.Authority
        → SpendsNone (P.panel judges.old) (P.panel judges.new) }
{
    match judges.verdict(did, digest, sig) {
        Ok(is_good) => Ok(is_good),
        Err(JudgeFault::NoneLeft) => Err(StepFault::Authority),
        Err(JudgeFault::Memory) => Err(StepFault::Memory),
    }
}

/// Has an account looked up anew.
pub(crate) fn ask_refresh<P: Judges>(judges: &mut P, did: &str) -> Result<(), StepFault>
    requires { IsTrue (is_did did.now) }
    ensures call { IsCall (called did.now (λ _. refreshes did.now) result) (P.panel judges.old)
        (P.panel judges.new) }
    ensures caused { IfErr result
        (IsCause ⊥ (IsSpent (P.panel judges.new (method_of did.now))) ⊥ ⊥) }
    ensures unspent { result ≢ Err StepFault.Authority
        → SpendsNone (P.panel judges.old) (P.panel judges.new) }
{
    match judges.refresh(did) {
        Ok(()) => Ok(()),
        Err(JudgeFault::NoneLeft) => Err(StepFault::Authority),
        Err(JudgeFault::Memory) => Err(StepFault::Memory),
    }
}

/// The clock's moment.
pub(crate) fn ask_moment<C: Clock>(clock: &mut C) -> Result<u64, StepFault>
    ensures number { IfOk result (λ moment. moment < NUMBERS) }
    ensures now { IfOk result (λ moment. IsTrue C.tells
        → IsNow (C.moments clock.old) moment (C.moments clock.new)) }
    ensures kept { OnErr result (IsTrue C.tells → C.moments clock.new ≡ C.moments clock.old) }
    ensures caused { IfErr result (IsCause ⊥ ⊥ ⊥ (Rose (C.faults clock.old) (C.faults clock.new))) }
    ensures counts { C.faults clock.old ≤ C.faults clock.new }
    ensures steady { result ≢ Err StepFault.Clock → C.faults clock.new ≡ C.faults clock.old }
{
    match clock.now() {
        Ok(moment) => Ok(moment),
        Err(_) => Err(StepFault::Clock),
    }
}
