//! What comes of a guest's session, and its line.

ghost use Rattle.std.specs.Prelude.{◌≡◌, ◌++◌, [], IfOk, OnOk, IfErr, IsTrue, Err};
ghost use Rattle.report_lines.specs.Lines.{numbered};
ghost use Rattle.at_cid.specs.Counts.{Counted};
ghost use Rattle.run_base.specs.Ends.{IsFinished, IsUnwritten, Writes, status_in};
ghost use Rattle.read_run.specs.Sessions.{sessions_end_line, session_line, told};

use crate::line::{end_with, write_line};
use at_cid::{Memory, Octets};
use relay_io::Sink;
use report_lines::add_number;
use run_base::Status;
use std::alloc::Global;

/// What came of a guest's session.
#[derive(Clone, Copy, Debug, PartialEq, Eq)]
pub enum Session {
    /// The cursor, and the number of events that were sent after it. Where none was asked for, the
    /// last number stands for it.
    Sent(u64, u64),
    /// The cursor is above the last number, and the guest was sent that notice alone.
    Future(u64),
    /// The target asks for no stream, or for no cursor that is one.
    BadTarget,
    /// The handshake gave no target.
    NoHandshake,
    /// Sending to the guest, or ending the session, failed after this number of events.
    Failed(u64),
}

// A word and a number.
fn add_numbered(line: &mut Octets, word: &[u8], number: u64) -> Result<(), Memory>
    ensures { OnOk result (line.new ≡ line.old ++ numbered word.now number) }
{
    line.extend(word)?;
    add_number(line, number)
}

fn add_sent(line: &mut Octets, cursor: u64, events: u64) -> Result<(), Memory>
    ensures { OnOk result (line.new ≡ line.old ++ told (Session.Sent cursor events)) }
{
    add_numbered(line, b" cursor ", cursor)?;
    add_numbered(line, b" sent ", events)
}

fn add_told(line: &mut Octets, session: Session) -> Result<(), Memory>
    ensures { OnOk result (line.new ≡ line.old ++ told session) }
{
    match session {
        Session::Sent(cursor, events) => add_sent(line, cursor, events),
        Session::Future(cursor) => add_numbered(line, b" future ", cursor),
        Session::BadTarget => line.extend(b" bad target"),
        Session::NoHandshake => line.extend(b" no handshake"),
        Session::Failed(events) => add_numbered(line, b" failed after ", events),
    }
}

// The line of the session of this number.
fn line_of(alloc: Global, number: u64, session: Session) -> Result<Octets, Memory>
    ensures { IfOk result (λ line. line ≡ session_line number session) }
{
    let mut line = Octets::new(alloc);
    add_numbered(&mut line, b"session ", number)?;
    add_told(&mut line, session)?;
    line.extend(b"\n")?;
    Ok(line)
}

// The last line.
fn last_line(alloc: Global, count: u64) -> Result<Octets, Memory>
    ensures { IfOk result (λ line. line ≡ sessions_end_line count) }
{
    let mut line = Octets::new(alloc);
    add_numbered(&mut line, b"end ", count)?;
    line.extend(b" sessions\n")?;
    Ok(line)
}

/// Writes the line of the session of this number.
pub(crate) fn write_session<O: Sink>(
    alloc: Global,
    number: u64,
    session: Session,
    out: &mut O,
) -> Result<(), Status>
    ensures written { IsTrue O.tells → Writes (status_in result) [] (session_line number session)
        (O.written out.old) (O.written out.new) }
    ensures few { IfErr result IsUnwritten }
    ensures counts { Counted (result ≡ Err Status.WriteFault)
        (O.faults out.old) (O.faults out.new) }
{
    match line_of(alloc, number, session) {
        Ok(line) => write_line(out, line.as_slice()),
        Err(_) => Err(Status::Memory),
    }
}

/// Writes the last line, with the number of sessions.
pub(crate) fn end_sessions<O: Sink>(alloc: Global, count: u64, out: &mut O) -> Status
    ensures written { IsTrue O.tells → Writes result [] (sessions_end_line count)
        (O.written out.old) (O.written out.new) }
    ensures few { IsFinished result }
    ensures counts { Counted (result ≡ Status.WriteFault) (O.faults out.old) (O.faults out.new) }
{
    match last_line(alloc, count) {
        Ok(line) => end_with(out, line.as_slice()),
        Err(_) => Status::Memory,
    }
}
