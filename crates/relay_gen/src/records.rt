//! The records of a repository, in order, and what a commit does to them.

ghost use Rattle.std.specs.Prelude.{◌≡◌, ◌≤◌, length, map, slice_get, OnOk};
ghost use Rattle.mst_list.specs.Lists.{Ascends};
ghost use Rattle.mst_list.specs.Edits.{before, put};
ghost use Rattle.mst_list.specs.Maps.{edited};
ghost use Rattle.relay_gen.specs.Records.{has_path, item_of, op_of, is_below};

use at_cid::{Cid, Memory, Words, compare};
use std::alloc::Global;

/// A record: its path, and the link of its value.
#[derive(Debug, Drop)]
pub(crate) struct Record {
    pub path: Words,
    pub value: Cid,
}

/// What a commit does to one record: a create has only `now`, a delete only `was`, and an update both.
#[derive(Debug, Drop)]
pub(crate) struct Change {
    pub path: Words,
    pub was: Option<Cid>,
    pub now: Option<Cid>,
}

/// How many records have a path below another.
pub(crate) fn place_of(records: &[Record], path: &Words) -> usize
    requires { Ascends (map item_of records.now) }
    ensures is { result ≡ length (before path.now (map item_of records.now)) }
    ensures in_range { result ≤ length records.now }
{
    records.partition_point(
        |record: &Record| -> bool
            ensures { result ≡ is_below path.entry.now record.now }
        { compare(record.path.as_bytes(), path.as_bytes()).is_lt() },
    )
}

/// Whether a path has the record at a place.
pub(crate) fn is_at(records: &[Record], at: usize, path: &Words) -> bool
    ensures { result ≡ has_path path.now (slice_get records.now at) }
{
    match records.get(at) {
        Some(record) => record.path == *path,
        None => false,
    }
}

/// Gives a path the value, or takes its record out.
pub(crate) fn put(records: &mut Vec<Record>, path: &Words, value: Option<Cid>) -> Result<(), Memory>
    requires { Ascends (map item_of records.old.items) }
    ensures { OnOk result (map item_of records.new.items
        ≡ put path.now value (map item_of records.old.items)) }
{
    let at = place_of(records.as_slice(), path);
    let visible = is_at(records.as_slice(), at, path);
    match value {
        Some(value) => {
            let record = Record {
                path: path.try_clone()?,
                value,
            };
            if visible {
                records[at] = record;
            } else {
                records.insert(at, record)?;
            }
        }
        None => {
            if visible {
                records.remove(at);
            }
        }
    }
    Ok(())
}

/// Makes the changes, one after another.
pub(crate) fn put_all(records: &mut Vec<Record>, changes: &[Change]) -> Result<(), Memory>
    requires { Ascends (map item_of records.old.items) }
    ensures { OnOk result (map item_of records.new.items
        ≡ edited (map item_of records.old.items) (map op_of changes.now)) }
{
    for change in changes {
        put(records, &change.path, change.now)?;
    }
    Ok(())
}
