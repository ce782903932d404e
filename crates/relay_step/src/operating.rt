//! An account taken down or restored at an operator's command.

ghost use Rattle.std.specs.Prelude.{◌≡◌, ◌≢◌, ◌≤◌, length, Err, IsTrue, IfOk, IfErr, OnErr};
ghost use Rattle.at_cid.specs.Counts.{Rose};
ghost use Rattle.at_syntax.specs.Did.{is_did};
ghost use Rattle.at_form.specs.declared.forms.TheConstants.{LONGEST_SHORT_TEXT};
ghost use Rattle.relay_step.specs.Causes.{IsCause, OneTaken};
ghost use Rattle.relay_step.specs.Messages.{KeepsJournal};
ghost use Rattle.relay_step.specs.Commands.{EndsBehind, OperatedAt, rows_commanded};

use crate::command::CommandAnswer;
use crate::fault::StepFault;
use crate::outside::ask_moment;
use crate::taking::is_full;
use at_cid::ghost_text;
use relay_core::Core;
use relay_io::Clock;
use relay_law::operated_rows_are_formed;
use relay_row::Row;
use std::alloc::Global;

/// Takes an account down, or restores it: the clock is asked first. `time` is that of the event by which this goes out.
pub fn operate<C: Clock>(
    alloc: Global,
    core: &Core,
    did: &str,
    down: bool,
    time: &str,
    clock: &mut C,
) -> Result<CommandAnswer, StepFault>
    requires did { IsTrue (is_did did.now) }
    requires time { length time.now ≤ LONGEST_SHORT_TEXT }
    ensures operated { IfOk result (λ command.
        OperatedAt C.tells core.now did.now down time.now (C.moments clock.old) command
        (C.moments clock.new)) }
    ensures formed { IfOk result (λ command. KeepsJournal core.now (rows_commanded command)) }
    ensures in_vain { OnErr result (IsTrue C.tells
        → OneTaken (C.moments clock.old) (C.moments clock.new)) }
    ensures caused { IfErr result (IsCause (EndsBehind core.now did.now down) ⊥ ⊥
        (Rose (C.faults clock.old) (C.faults clock.new))) }
    ensures counts { C.faults clock.old ≤ C.faults clock.new }
    ensures steady { result ≢ Err StepFault.Clock → C.faults clock.new ≡ C.faults clock.old }
{
    let moment = ask_moment(clock)?;
    if let Some(refusal) = core.operate_refusal(did, down) {
        return Ok(CommandAnswer::Refused(refusal));
    }
    if is_full(core) {
        return Err(StepFault::SeqEnd);
    }
    operated_rows_are_formed();
    ghost_text(did);
    ghost_text(time);
    let operated = core.operated(alloc, did, down, time, Some(moment))?;
    Ok(CommandAnswer::Made(Row::Operated(operated)))
}
