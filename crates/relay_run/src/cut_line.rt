//! The line of what cutting the journal came to.

ghost use Rattle.std.specs.Prelude.{◌≡◌, ◌⊎◌, ◌++◌, ◌∷◌, [], codes, IsTrue, IsErr, OnOk};
ghost use Rattle.at_cid.specs.Counts.{Counted};
ghost use Rattle.relay_io.specs.Streams.{AddsFront};
ghost use Rattle.relay_run.specs.Lines.{EndsCut, cut_text};
ghost use Rattle.report_lines.specs.Lines.{numbered};
ghost use Rattle.run_base.specs.Ends.{Writes};

use crate::answering::{answer_refused, write_last, write_number};
use relay_io::{Failed, Sink};
use run_base::Status;
use std::alloc::Global;
use store_cut::CutDone;

fn write_bounds<O: Sink>(out: &mut O, oldest: u64, last: u64) -> Result<(), Failed>
    ensures written { OnOk result (IsTrue O.tells
        → O.written out.new ≡ O.written out.old
        ++ (numbered (codes " oldest ") oldest ++ (numbered (codes " last ") last ++ 10 ∷ []))) }
    ensures front { IsTrue O.tells → AddsFront (O.written out.old) (O.written out.new)
        (numbered (codes " oldest ") oldest ++ (numbered (codes " last ") last ++ 10 ∷ [])) }
    ensures counts { Counted (IsErr result) (O.faults out.old) (O.faults out.new) }
{
    write_number(out, b" oldest ", oldest)?;
    write_last(out, b" last ", last)
}

fn write_cut<O: Sink>(out: &mut O, seq: u64, oldest: u64, last: u64) -> Result<(), Failed>
    ensures written { OnOk result (IsTrue O.tells
        → O.written out.new ≡ O.written out.old ++ cut_text seq (CutDone.Cut oldest last)) }
    ensures front { IsTrue O.tells → AddsFront (O.written out.old) (O.written out.new)
        (cut_text seq (CutDone.Cut oldest last)) }
    ensures counts { Counted (IsErr result) (O.faults out.old) (O.faults out.new) }
{
    write_number(out, b"cut ", seq)?;
    write_bounds(out, oldest, last)
}

// Memory is taken for a refusal alone: behind a log that was written nothing fails but the output.
pub(crate) fn answer_cut<O: Sink>(alloc: Global, seq: u64, done: &CutDone, out: &mut O) -> Status
    ensures ends { EndsCut done.now result }
    ensures written { IsTrue O.tells → Writes result [] (cut_text seq done.now) (O.written out.old)
        (O.written out.new) }
    ensures quiet { IsTrue O.tells → result ≡ Status.Memory
        → O.written out.new ≡ O.written out.old }
    ensures counts { Counted (result ≡ Status.WriteFault) (O.faults out.old) (O.faults out.new) }
{
    match done {
        CutDone::Refused(refusal) => answer_refused(alloc, refusal, out),
        CutDone::Cut(oldest, last) => match write_cut(out, seq, *oldest, *last) {
            Ok(()) => Status::Done,
            Err(_) => Status::WriteFault,
        },
    }
}
