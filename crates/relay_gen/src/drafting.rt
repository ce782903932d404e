//! What a commit is to do.

ghost use Rattle.std.specs.Prelude.{◌≡◌, ◌≤◌, ◌<◌, map, OnOk, IfOk};
ghost use Rattle.std.specs.List.{list_any};
ghost use Rattle.std.specs.Str.{bytes_eq};
ghost use Rattle.mst_list.specs.declared.op.Op.{Op};
ghost use Rattle.relay_gen.specs.declared.history.TheConstants.{MOST_MESSAGES};
ghost use Rattle.relay_gen.specs.Names.{generated_value};
ghost use Rattle.relay_gen.specs.Drafts.{drafted, with_drawn, with_op};
ghost use Rattle.relay_gen.specs.Records.{item_of, op_of};

use crate::draws::Draws;
use crate::paths::path_of;
use crate::records::{Change, Record};
use at_cbor::{write_int, write_map_front, write_text};
use at_cid::{Cid, Memory, Octets, Words, cid_of};
use std::alloc::Global;

/// The link of the value of a number: the object `{n}`.
#[tactic(auto, unfolding(crate::specs::Names::generated_value))]
fn value_of(alloc: Global, number: u32) -> Result<Cid, Memory>
    ensures { IfOk result (λ value. value ≡ generated_value number) }
{
    let mut object = Octets::new(alloc);
    write_map_front(&mut object, 1)?;
    write_text(&mut object, "n")?;
    write_int(&mut object, i64::from(number))?;
    Ok(cid_of(object.as_slice()))
}

/// Whether a record is changed.
fn is_changed(changes: &[Change], path: &Words) -> bool
    ensures { result ≡ list_any (λ (o : Op). bytes_eq o.key path.now) (map op_of changes.now) }
{
    let mut rest = changes;
    'changes: loop {
        let [change, others @ ..] = rest else {
            return false;
        };
        if change.path == *path {
            return true;
        }
        rest = others;
    }
}

/// Adds a change, unless the record is changed already.
fn add(changes: &mut Vec<Change>, change: Change) -> Result<(), Memory>
    ensures { OnOk result (map op_of changes.new.items
        ≡ with_op (map op_of changes.old.items) (op_of change)) }
{
    if is_changed(changes.as_slice(), &change.path) {
        return Ok(());
    }
    changes.push(change)?;
    Ok(())
}

/// Draws a change of a message's number, and adds it.
fn draft_one(
    alloc: Global,
    draws: &mut Draws,
    records: &[Record],
    number: u32,
    place: u32,
    changes: &mut Vec<Change>,
) -> Result<(), Memory>
    requires number { number ≤ MOST_MESSAGES }
    requires place { place < 4 }
    ensures { OnOk result (record { ops = map op_of changes.new.items; state = draws.new }
        ≡ with_drawn (map item_of records.now) number place
        (record { ops = map op_of changes.old.items; state = draws.old })) }
{
    let kind = draws.draw(8);
    let value = value_of(alloc, number * 8 + place)?;
    if kind < 5 || records.is_empty() {
        let path = path_of(alloc, number * 4 + place)?;
        let change = Change {
            path,
            was: None,
            now: Some(value),
        };
        return add(changes, change);
    }
    let index = draws.draw(records.len() as u64) as usize;
    let record = &records[index];
    let change = Change {
        path: record.path.try_clone()?,
        was: Some(record.value),
        now: if kind < 7 { Some(value) } else { None },
    };
    add(changes, change)
}

/// Draws what the commit of a number does to records.
pub(crate) fn draft(
    alloc: Global,
    draws: &mut Draws,
    records: &[Record],
    number: u32,
) -> Result<Vec<Change>, Memory>
    requires { number ≤ MOST_MESSAGES }
    ensures { IfOk result (λ changes. record { ops = map op_of changes.items; state = draws.new }
        ≡ drafted (map item_of records.now) number draws.old) }
{
    let count = 1 + draws.draw(4) as u32;
    let mut changes = Vec::new(alloc);
    for place in 0..count {
        draft_one(alloc, draws, records, number, place, &mut changes)?;
    }
    Ok(changes)
}
