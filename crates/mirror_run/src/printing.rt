//! The lines of a mirror on an output.

ghost use Rattle.std.specs.Prelude.{◌≡◌, ◌++◌, ℕ, List, [], false, IsTrue, IsErr, IfOk, IfErr, OnOk, OnErr, Err};
ghost use Rattle.relay_io.specs.Streams.{AddsFront};
ghost use Rattle.mirror.specs.State.{is_known};
ghost use Rattle.mirror_run.specs.Lines.{mirror_end_line};
ghost use Rattle.mirror_run.specs.Printing.{AreKnown, Moves, line_in, lines_in};
ghost use Rattle.at_cid.specs.Counts.{Counted};
ghost use Rattle.run_base.specs.Ends.{IsFinished, IsUnwritten, Writes};

use crate::line::{end_line, map_line, waiting_line};
use at_cid::{Memory, Octets};
use mirror::Mirror;
use relay_io::{Failed, Sink, write_all};
use run_base::Status;
use std::alloc::Global;

/// As many bytes are written together.
const PIECE: usize = 1 << 15;

// The line of an account.
fn account_line(alloc: Global, mirror: &Mirror, did: &str) -> Result<Octets, Memory>
    ensures { IfOk result (λ line. line ≡ line_in mirror.now did.now) }
{
    match mirror.map(did) {
        Some((rev, map)) => map_line(alloc, did, rev, map),
        None => waiting_line(alloc, did),
    }
}

// Adds the line of an account.
fn add_account(alloc: Global, mirror: &Mirror, did: &str, text: &mut Octets) -> Result<(), Memory>
    ensures { OnOk result (text.new ≡ text.old ++ line_in mirror.now did.now) }
{
    let line = account_line(alloc, mirror, did)?;
    text.extend(line.as_slice())
}

// Writes what waits, where that is so much.
fn write_some<O: Sink>(out: &mut O, text: &mut Octets, enough: usize) -> Result<(), Failed>
    ensures moved { OnOk result (IsTrue O.tells
        → Moves (O.written out.old) (O.written out.new) text.old text.new) }
    ensures front { OnErr result (IsTrue O.tells
        → AddsFront (O.written out.old) (O.written out.new) text.old) }
    ensures all { OnOk result (enough ≡ 0 → text.new ≡ []) }
    ensures counts { Counted (IsErr result) (O.faults out.old) (O.faults out.new) }
{
    if text.len() < enough {
        return Ok(());
    }
    write_all(out, text.as_slice())?;
    text.clear();
    Ok(())
}

// Writes the line of each account, the last of which wait as text.
fn write_accounts<O: Sink>(
    alloc: Global,
    mirror: &Mirror,
    out: &mut O,
    text: &mut Octets,
) -> Result<(), Status>
    requires start { text.old ≡ [] }
    requires named { is_known mirror.now [] ≡ false }
    ensures written { OnOk result (IsTrue O.tells → (dids : List (List ℕ))
        → AreKnown mirror.now dids
        → Moves (O.written out.old) (O.written out.new) (lines_in mirror.now dids) text.new) }
    ensures front { IfErr result (λ status. IsUnwritten status × (IsTrue O.tells
        → (dids : List (List ℕ)) → AreKnown mirror.now dids
        → AddsFront (O.written out.old) (O.written out.new) (lines_in mirror.now dids))) }
    ensures counts { Counted (result ≡ Err Status.WriteFault)
        (O.faults out.old) (O.faults out.new) }
{
    let mut last = "";
    'accounts: loop {
        let Some(did) = mirror.next_after(last) else {
            return Ok(());
        };
        match add_account(alloc, mirror, did, text) {
            Ok(()) => {}
            Err(_) => return Err(Status::Memory),
        }
        match write_some(out, text, PIECE) {
            Ok(()) => {}
            Err(_) => return Err(Status::WriteFault),
        }
        last = did;
    }
}

// Writes what waits, and behind it the last line.
fn write_end<O: Sink>(alloc: Global, events: u64, out: &mut O, text: &mut Octets) -> Status
    ensures written { IsTrue O.tells → Writes result [] (text.old ++ mirror_end_line events)
        (O.written out.old) (O.written out.new) }
    ensures wrote { IsFinished result }
    ensures counts { Counted (result ≡ Status.WriteFault) (O.faults out.old) (O.faults out.new) }
{
    let line = match end_line(alloc, events) {
        Ok(line) => line,
        Err(_) => return Status::Memory,
    };
    match text.extend(line.as_slice()) {
        Ok(()) => {}
        Err(_) => return Status::Memory,
    }
    match write_some(out, text, 0) {
        Ok(()) => Status::Done,
        Err(_) => Status::WriteFault,
    }
}

/// Writes the line of each account that a mirror knows, in ascending order, and the last line.
pub(crate) fn write_text<O: Sink>(
    alloc: Global,
    mirror: &Mirror,
    events: u64,
    out: &mut O,
) -> Status
    requires named { is_known mirror.now [] ≡ false }
    ensures written { IsTrue O.tells → (dids : List (List ℕ)) → AreKnown mirror.now dids
        → Writes result [] (lines_in mirror.now dids ++ mirror_end_line events)
        (O.written out.old) (O.written out.new) }
    ensures wrote { IsFinished result }
    ensures counts { Counted (result ≡ Status.WriteFault) (O.faults out.old) (O.faults out.new) }
{
    let mut text = Octets::new(alloc);
    match write_accounts(alloc, mirror, out, &mut text) {
        Ok(()) => write_end(alloc, events, out, &mut text),
        Err(status) => status,
    }
}
