//! Lines of the report, as messages are answered.

ghost use Rattle.std.specs.Prelude.{◌≡◌, ◌≤◌, ◌<◌, ◌+◌, ◌^◌, [], ◌∷◌, ◌++◌, None, Err, OnOk, OnErr, IfOk, IfErr, IsTrue, length};
ghost use Rattle.relay_core.specs.Report.{over_line};
ghost use Rattle.store_take.specs.Lines.{end_line_of};
ghost use Rattle.at_cid.specs.Counts.{Counted};
ghost use Rattle.run_base.specs.Ends.{IsFinished, IsUnwritten, Writes, status_in};
ghost use Rattle.take_run.specs.Said.{IsNoted, answered, text_of};

use crate::tally::Tally;
use at_cid::{Memory, Octets};
use relay_io::{Sink, write_all};
use run_base::Status;
use std::alloc::Global;
use store_take::{Message, Outcome, end_line, line};

// Notes the answers to the first messages of a group, and adds their lines.
fn note_all(
    alloc: Global,
    group: &[Message],
    outcomes: &[Outcome],
    tally: &mut Tally,
    text: &mut Octets,
) -> Result<(), Memory>
    requires few { length outcomes.now ≤ length group.now }
    requires room { tally.old.messages + length group.now ≤ 2 ^ 63 }
    ensures noted { OnOk result (IsNoted (answered group.now outcomes.now) tally.old tally.new) }
    ensures text { OnOk result (text.new ≡ text.old ++ text_of (answered group.now outcomes.now)) }
{
    for i in 0..outcomes.len() {
        let host = group[i].host.as_str();
        let outcome = &outcomes[i];
        tally.note(alloc, host, outcome)?;
        line(alloc, host, outcome, text)?;
    }
    Ok(())
}

// Writes lines.
fn write_lines<O: Sink>(out: &mut O, text: &Octets) -> Result<(), Status>
    ensures written { IsTrue O.tells
        → Writes (status_in result) [] text.now (O.written out.old) (O.written out.new) }
    ensures unwritten { IfErr result (λ status. status ≡ Status.WriteFault) }
    ensures counts { Counted (result ≡ Err Status.WriteFault)
        (O.faults out.old) (O.faults out.new) }
{
    match write_all(out, text.as_slice()) {
        Ok(()) => Ok(()),
        Err(_) => Err(Status::WriteFault),
    }
}

/// Notes the answers to the first messages of a group, and writes their lines.
pub(crate) fn answer<O: Sink>(
    alloc: Global,
    group: &[Message],
    outcomes: &[Outcome],
    tally: &mut Tally,
    out: &mut O,
) -> Result<(), Status>
    requires few { length outcomes.now ≤ length group.now }
    requires room { tally.old.messages + length group.now ≤ 2 ^ 63 }
    ensures noted { OnOk result (IsNoted (answered group.now outcomes.now) tally.old tally.new) }
    ensures written { IsTrue O.tells → Writes (status_in result) []
        (text_of (answered group.now outcomes.now)) (O.written out.old) (O.written out.new) }
    ensures some { OnErr result (0 < length outcomes.now) }
    ensures unwritten { IfErr result IsUnwritten }
    ensures nothing { result ≡ Err Status.Memory → IsTrue O.tells
        → O.written out.new ≡ O.written out.old }
    ensures counts { Counted (result ≡ Err Status.WriteFault)
        (O.faults out.old) (O.faults out.new) }
{
    if outcomes.is_empty() {
        return Ok(());
    }
    let mut text = Octets::new(alloc);
    match note_all(alloc, group, outcomes, tally, &mut text) {
        Ok(()) => {}
        Err(_) => return Err(Status::Memory),
    }
    write_lines(out, &text)
}

// The line of a message of a host that ended before.
fn line_over(alloc: Global, host: &str) -> Result<Octets, Memory>
    ensures { IfOk result (λ text. text ≡ over_line host.now) }
{
    let mut text = Octets::new(alloc);
    text.extend(host.as_bytes())?;
    text.extend(b" after end\n")?;
    Ok(text)
}

/// Notes a message of a host that ended before, and writes its line.
pub(crate) fn skip<O: Sink>(
    alloc: Global,
    host: &str,
    tally: &mut Tally,
    out: &mut O,
) -> Result<(), Status>
    requires room { tally.old.messages < 2 ^ 63 }
    ensures noted { OnOk result (IsNoted ((host.now, None) ∷ []) tally.old tally.new) }
    ensures written { IsTrue O.tells → Writes (status_in result) [] (over_line host.now)
        (O.written out.old) (O.written out.new) }
    ensures unwritten { IfErr result IsUnwritten }
    ensures nothing { result ≡ Err Status.Memory → IsTrue O.tells
        → O.written out.new ≡ O.written out.old }
    ensures counts { Counted (result ≡ Err Status.WriteFault)
        (O.faults out.old) (O.faults out.new) }
{
    let text = match line_over(alloc, host) {
        Ok(text) => text,
        Err(_) => return Err(Status::Memory),
    };
    tally.skip();
    write_lines(out, &text)
}

/// Writes the last line, beside the journal's last number, and says how that ended.
pub(crate) fn finish<O: Sink>(alloc: Global, last: u64, tally: &Tally, out: &mut O) -> Status
    ensures ends { IsFinished result }
    ensures written { IsTrue O.tells → Writes result []
        (end_line_of tally.now.messages tally.now.events tally.now.refused last)
        (O.written out.old) (O.written out.new) }
    ensures counts { Counted (result ≡ Status.WriteFault) (O.faults out.old) (O.faults out.new) }
{
    let mut text = Octets::new(alloc);
    match end_line(
        alloc,
        tally.messages,
        tally.events,
        tally.refused,
        last,
        &mut text,
    ) {
        Ok(()) => {}
        Err(_) => return Status::Memory,
    }
    match write_lines(out, &text) {
        Ok(()) => Status::Done,
        Err(status) => status,
    }
}
