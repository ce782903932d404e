//! The line of what was answered to an operator.

ghost use Rattle.std.specs.Prelude.{◌≡◌, ◌⊎◌, ◌++◌, ◌∷◌, [], IsTrue, IsErr, IfOk, OnOk};
ghost use Rattle.at_cid.specs.Counts.{Counted};
ghost use Rattle.relay_io.specs.Streams.{AddsFront};
ghost use Rattle.report_lines.specs.Lines.{numbered};
ghost use Rattle.relay_run.specs.Lines.{IsEndOf, done_text};
ghost use Rattle.run_base.specs.Ends.{Writes};

use at_cid::{Memory, Octets};
use at_event::Refusal;
use itoa::Buffer;
use relay_io::{Failed, Sink, write_all};
use report_lines::add_refusal;
use run_base::Status;
use std::alloc::Global;
use store_take::Done;

// A word and a number.
pub(crate) fn write_number<O: Sink>(out: &mut O, command: &[u8], number: u64) -> Result<(), Failed>
    ensures written { OnOk result (IsTrue O.tells
        → O.written out.new ≡ O.written out.old ++ numbered command.now number) }
    ensures front { IsTrue O.tells → AddsFront (O.written out.old) (O.written out.new)
        (numbered command.now number) }
    ensures counts { Counted (IsErr result) (O.faults out.old) (O.faults out.new) }
{
    write_all(out, command)?;
    write_all(out, Buffer::new().format(number).as_bytes())
}

// A word and a number at the end of a line.
pub(crate) fn write_last<O: Sink>(out: &mut O, command: &[u8], number: u64) -> Result<(), Failed>
    ensures written { OnOk result (IsTrue O.tells
        → O.written out.new ≡ O.written out.old ++ (numbered command.now number ++ 10 ∷ [])) }
    ensures front { IsTrue O.tells → AddsFront (O.written out.old) (O.written out.new)
        (numbered command.now number ++ 10 ∷ []) }
    ensures counts { Counted (IsErr result) (O.faults out.old) (O.faults out.new) }
{
    write_number(out, command, number)?;
    write_all(out, b"\n")
}

fn write_synced<O: Sink>(out: &mut O, seq: u64, records: u64) -> Result<(), Failed>
    ensures written { OnOk result (IsTrue O.tells
        → O.written out.new ≡ O.written out.old ++ done_text (Done.Synced seq records)) }
    ensures front { IsTrue O.tells → AddsFront (O.written out.old) (O.written out.new)
        (done_text (Done.Synced seq records)) }
    ensures counts { Counted (IsErr result) (O.faults out.old) (O.faults out.new) }
{
    write_number(out, b"synced ", seq)?;
    write_last(out, b" records ", records)
}

fn refused_line(alloc: Global, refusal: &Refusal) -> Result<Octets, Memory>
    ensures { IfOk result (λ line. line ≡ done_text (Done.Refused refusal.now)) }
{
    let mut line = Octets::new(alloc);
    add_refusal(&mut line, refusal)?;
    line.extend(b"\n")?;
    Ok(line)
}

// The line of a refusal, for which memory is taken.
pub(crate) fn answer_refused<O: Sink>(alloc: Global, refusal: &Refusal, out: &mut O) -> Status
    ensures ends { IsEndOf (Done.Refused refusal.now) result }
    ensures written { IsTrue O.tells → Writes result [] (done_text (Done.Refused refusal.now))
        (O.written out.old) (O.written out.new) }
    ensures quiet { IsTrue O.tells → result ≡ Status.Memory
        → O.written out.new ≡ O.written out.old }
    ensures counts { Counted (result ≡ Status.WriteFault) (O.faults out.old) (O.faults out.new) }
{
    let line = match refused_line(alloc, refusal) {
        Ok(line) => line,
        Err(_) => return Status::Memory,
    };
    match write_all(out, line.as_slice()) {
        Ok(()) => Status::Refused(refusal.code()),
        Err(_) => Status::WriteFault,
    }
}

// Memory is taken for a refusal alone: behind a row that was added nothing fails but the output.
pub(crate) fn answer<O: Sink>(alloc: Global, done: &Done, out: &mut O) -> Status
    ensures ends { IsEndOf done.now result }
    ensures written { IsTrue O.tells → Writes result [] (done_text done.now) (O.written out.old)
        (O.written out.new) }
    ensures quiet { IsTrue O.tells → result ≡ Status.Memory
        → O.written out.new ≡ O.written out.old }
    ensures counts { Counted (result ≡ Status.WriteFault) (O.faults out.old) (O.faults out.new) }
{
    let written = match done {
        Done::Event(seq) => write_last(out, b"event ", *seq),
        Done::Synced(seq, records) => write_synced(out, *seq, *records),
        Done::Refused(refusal) => return answer_refused(alloc, refusal, out),
    };
    match written {
        Ok(()) => Status::Done,
        Err(_) => Status::WriteFault,
    }
}

// Writes a text.
pub(crate) fn show<O: Sink>(text: &[u8], out: &mut O) -> Status
    ensures ends { (result ≡ Status.Done) ⊎ (result ≡ Status.WriteFault) }
    ensures written { IsTrue O.tells → Writes result [] text.now (O.written out.old)
        (O.written out.new) }
    ensures counts { Counted (result ≡ Status.WriteFault) (O.faults out.old) (O.faults out.new) }
{
    match write_all(out, text) {
        Ok(()) => Status::Done,
        Err(_) => Status::WriteFault,
    }
}
