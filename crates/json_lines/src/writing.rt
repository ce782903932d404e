//! The lines of an event.

ghost use Rattle.std.specs.Prelude.{◌≡◌, ◌++◌, IfOk, OnOk, OnErr, option_map};
ghost use Rattle.json_lines.specs.Lines.{is_in, lines_from, lines_of_event};

use crate::action::action_text;
use crate::line::line_of;
use at_cid::{Memory, Octets};
use at_event::{Body, Event, EventOp};
use at_syntax::Tid;
use std::alloc::Global;

// Whether the record of an operation is in a collection.
fn is_in(collection: Option<&str>, op: &EventOp) -> bool
    ensures { result ≡ is_in (option_map (λ text. text.now) collection.entry) op.now }
{
    let Some(collection) = collection else {
        return true;
    };
    match op.path.as_str().split_once('/') {
        Some((front, _)) => front == collection,
        None => op.path.as_str() == collection,
    }
}

// The lines of the operations of a commit.
fn lines_of_ops(
    alloc: Global,
    event: &Event,
    rev: Tid,
    ops: &[EventOp],
    collection: Option<&str>,
) -> Result<Octets, Memory>
    ensures { IfOk result (λ lines. lines
        ≡ lines_from (option_map (λ text. text.now) collection.entry) event.now rev 0 ops.now) }
{
    let mut lines = Octets::new(alloc);
    for place in 0..ops.len() {
        let op = &ops[place];
        if is_in(collection, op) {
            let action = action_text(event, place, op.action);
            let line = line_of(alloc, event.seq, event.did.as_str(), rev, action, op)?;
            lines.extend(line.as_slice())?;
        }
    }
    Ok(lines)
}

/// Appends a line for each operation of a commit whose record is in the collection, or of all of
/// them where none is named, in the order of the event. Every other event has no lines.
///
/// A line is a JSON object without blanks and a line feed. Its members are `action`, `cid` and
/// `prev` where they are there, as `{"$link":TEXT}`, `did`, `path`, `rev` and `seq`, in the order
/// of the bytes of their names. An error says that there was no memory for the lines, none of which
/// were appended then.
pub fn lines(
    alloc: Global,
    event: &Event,
    collection: Option<&str>,
    out: &mut Octets,
) -> Result<(), Memory>
    ensures added { OnOk result (out.new
        ≡ out.old ++ lines_of_event (option_map (λ text. text.now) collection.entry) event.now) }
    ensures kept { OnErr result (out.new ≡ out.old) }
{
    let Body::Commit(commit) = &event.body else {
        return Ok(());
    };
    let commit = commit.get();
    let lines = lines_of_ops(alloc, event, commit.rev, commit.ops.as_slice(), collection)?;
    out.extend(lines.as_slice())
}
