//! The lines of a report.

ghost use Rattle.std.specs.Prelude.{◌≡◌, ◌++◌, ◌∷◌, [], IfOk, OnOk, OnErr, decimal};
ghost use Rattle.store_take.specs.Lines.{end_line_of, end_word, fetch_word, line_of, outcome_word};

use crate::outcome::{End, Fetch, Outcome};
use at_cid::{Memory, Octets};
use report_lines::{add_number, add_refusal};
use std::alloc::Global;

fn add_fetch(line: &mut Octets, fetch: &Fetch) -> Result<(), Memory>
    ensures { OnOk result (line.new ≡ line.old ++ fetch_word fetch.now) }
{
    match fetch {
        Fetch::NotAsked => {}
        Fetch::Absent => line.extend(b" absent")?,
        Fetch::Refused(number) => {
            line.extend(b" repository ")?;
            add_number(line, u64::from(*number))?;
        }
        Fetch::Whole(seq, records) => {
            line.extend(b" synced ")?;
            add_number(line, *seq)?;
            line.extend(b" records ")?;
            add_number(line, *records)?;
        }
    }
    Ok(())
}

fn add_end(line: &mut Octets, end: &End) -> Result<(), Memory>
    ensures { OnOk result (line.new ≡ line.old ++ end_word end.now) }
{
    match end {
        End::BadFrame => line.extend(b" ended frame"),
        End::NoSeq => line.extend(b" ended seq"),
        End::Error => line.extend(b" ended error"),
    }
}

fn add_outcome(line: &mut Octets, outcome: &Outcome) -> Result<(), Memory>
    ensures { OnOk result (line.new ≡ line.old ++ outcome_word outcome.now) }
{
    match outcome {
        Outcome::Event(number, seq) => {
            line.extend(b" ")?;
            add_number(line, *number)?;
            line.extend(b" event ")?;
            add_number(line, *seq)
        }
        Outcome::Held(number) => {
            line.extend(b" ")?;
            add_number(line, *number)?;
            line.extend(b" held")
        }
        Outcome::Refused(number, refusal, fetch) => {
            line.extend(b" ")?;
            add_number(line, *number)?;
            line.extend(b" ")?;
            add_refusal(line, refusal)?;
            add_fetch(line, fetch)
        }
        Outcome::Old(number) => {
            line.extend(b" ")?;
            add_number(line, *number)?;
            line.extend(b" old")
        }
        Outcome::Unknown => line.extend(b" unknown"),
        Outcome::Info => line.extend(b" info"),
        Outcome::Ended(end) => add_end(line, end),
    }
}

// How many bytes get room at once: most lines have no more.
const ORDINARY_LINE: usize = 64;

fn make_line(alloc: Global, host: &str, outcome: &Outcome) -> Result<Octets, Memory>
    ensures { IfOk result (λ line. line ≡ line_of host.now outcome.now) }
{
    let mut line = Octets::from_vec(Vec::with_capacity(alloc, ORDINARY_LINE)?);
    line.extend(host.as_bytes())?;
    add_outcome(&mut line, outcome)?;
    line.extend(b"\n")?;
    Ok(line)
}

fn make_end_line(
    alloc: Global,
    messages: u64,
    events: u64,
    refused: u64,
    last: u64,
) -> Result<Octets, Memory>
    ensures { IfOk result (λ line. line ≡ end_line_of messages events refused last) }
{
    let mut line = Octets::new(alloc);
    line.extend(b"end ")?;
    add_number(&mut line, messages)?;
    line.extend(b" events ")?;
    add_number(&mut line, events)?;
    line.extend(b" refused ")?;
    add_number(&mut line, refused)?;
    line.extend(b" last ")?;
    add_number(&mut line, last)?;
    line.extend(b"\n")?;
    Ok(line)
}

/// Adds the line of what was answered to a message of a host.
pub fn line(alloc: Global, host: &str, outcome: &Outcome, out: &mut Octets) -> Result<(), Memory>
    ensures ok { OnOk result (out.new ≡ out.old ++ line_of host.now outcome.now) }
    ensures err { OnErr result (out.new ≡ out.old) }
{
    let line = make_line(alloc, host, outcome)?;
    out.extend(line.as_slice())
}

/// Adds the last line: how many messages there were, how many numbers were given, how many messages were refused, and the last
/// number.
pub fn end_line(
    alloc: Global,
    messages: u64,
    events: u64,
    refused: u64,
    last: u64,
    out: &mut Octets,
) -> Result<(), Memory>
    ensures ok { OnOk result (out.new ≡ out.old ++ end_line_of messages events refused last) }
    ensures err { OnErr result (out.new ≡ out.old) }
{
    let line = make_end_line(alloc, messages, events, refused, last)?;
    out.extend(line.as_slice())
}
