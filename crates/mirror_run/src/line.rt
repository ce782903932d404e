//! The lines of a mirror.

ghost use Rattle.std.specs.Prelude.{◌≡◌, ◌++◌, IfOk, OnOk, Some, None};
ghost use Rattle.at_syntax.specs.Tid.{digits_of};
ghost use Rattle.mirror_run.specs.Lines.{mirror_end_line, line_with, records_words, root_words};

use at_cid::{Cid, Memory, Octets};
use at_syntax::{TID_LEN, Tid};
use mirror::{WholeMap, whole_root};
use report_lines::{add_link, add_number};
use std::alloc::Global;

fn add_rev(line: &mut Octets, rev: Tid) -> Result<(), Memory>
    ensures { OnOk result (line.new ≡ line.old ++ digits_of rev) }
{
    let mut text = [0; TID_LEN];
    rev.write(&mut text);
    line.extend(&text)
}

#[tactic(auto, unfolding(crate::specs::Lines::records_words))]
fn add_records(line: &mut Octets, count: u64) -> Result<(), Memory>
    ensures { OnOk result (line.new ≡ line.old ++ records_words count) }
{
    line.extend(b" records ")?;
    add_number(line, count)
}

fn add_root(line: &mut Octets, root: &Cid) -> Result<(), Memory>
    ensures { OnOk result (line.new ≡ line.old ++ root_words root.now) }
{
    line.extend(b" root ")?;
    add_link(line, root)
}

// What is said of a map.
fn add_map(line: &mut Octets, rev: Tid, count: u64, root: &Cid) -> Result<(), Memory>
    ensures { OnOk result (line.new ≡ line.old
        ++ (digits_of rev ++ (records_words count ++ root_words root.now))) }
{
    add_rev(line, rev)?;
    add_records(line, count)?;
    add_root(line, root)
}

/// The line of an account that has a map, with its line feed: the revision that gave the map, how many
/// records it has, and its root.
pub(crate) fn map_line(alloc: Global, did: &str, rev: Tid, map: &WholeMap) -> Result<Octets, Memory>
    ensures { IfOk result (λ line. line ≡ line_with did.now (Some (rev, map.now))) }
{
    let root = whole_root(alloc, map)?;
    let mut line = Octets::new(alloc);
    line.extend(did.as_bytes())?;
    line.extend(b" ")?;
    add_map(&mut line, rev, map.len() as u64, &root)?;
    line.push(b'\n')?;
    Ok(line)
}

/// The line of an account that waits.
pub(crate) fn waiting_line(alloc: Global, did: &str) -> Result<Octets, Memory>
    ensures { IfOk result (λ line. line ≡ line_with did.now None) }
{
    let mut line = Octets::new(alloc);
    line.extend(did.as_bytes())?;
    line.extend(b" waiting\n")?;
    Ok(line)
}

/// The last line, with the number of events.
pub(crate) fn end_line(alloc: Global, events: u64) -> Result<Octets, Memory>
    ensures { IfOk result (λ line. line ≡ mirror_end_line events) }
{
    let mut line = Octets::new(alloc);
    line.extend(b"end ")?;
    add_number(&mut line, events)?;
    line.push(b'\n')?;
    Ok(line)
}
