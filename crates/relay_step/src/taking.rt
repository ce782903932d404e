//! The row of a decided event.

ghost use Rattle.std.specs.Prelude.{◌≡◌, ◌+◌, ◌≤◌, ◌<◌, true, false, IfOk, IfErr, OnOk};
ghost use Rattle.at_cid.specs.declared.limits.TheConstants.{NUMBERS};
ghost use Rattle.relay_core.specs.Answering.{event_taken, goes_out};
ghost use Rattle.relay_step.specs.Causes.{IsCause};
ghost use Rattle.relay_step.specs.declared.decided.Decided.{Decided as Outcome};

use crate::decided::Decided;
use crate::fault::StepFault;
use at_cid::NUMBERS;
use at_event::Event;
use relay_core::{Answers, Core, Decision, goes_out};
use std::alloc::Global;

/// Whether there is no number behind the last one.
pub(crate) fn is_full(core: &Core) -> bool
    ensures full { result ≡ true → NUMBERS ≤ core.now.last + 1 }
    ensures free { result ≡ false → core.now.last + 1 < NUMBERS }
{
    core.last_seq() >= NUMBERS - 1
}

/// The row of an event that is decided so. The event and the answers move into it.
pub(crate) fn take(
    alloc: Global,
    core: &Core,
    host: &str,
    event: Event,
    decision: &Decision,
    answers: Answers,
) -> Result<Decided, StepFault>
    ensures recorded { IfOk result (λ told. told
        ≡ Outcome.Recorded (event_taken core.now.last host.now event decision.now answers)) }
    ensures number { OnOk result (goes_out decision.now.refusal decision.now.held ≡ true
        → core.now.last + 1 < NUMBERS) }
    ensures caused { IfErr result (IsCause ((NUMBERS ≤ core.now.last + 1)
        × (goes_out decision.now.refusal decision.now.held ≡ true)) ⊥ ⊥ ⊥) }
{
    if goes_out(decision) && is_full(core) {
        return Err(StepFault::SeqEnd);
    }
    let row = core.row_of_event(alloc, host, event, decision, answers)?;
    Ok(Decided::Recorded(row))
}
