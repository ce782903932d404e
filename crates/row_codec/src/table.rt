//! Rows, read item by item.

ghost use Rattle.std.specs.Prelude.{◌≡◌};
ghost use Rattle.row_codec.specs.Readers.{Reads};
ghost use Rattle.row_codec.specs.Reading.{taken_at, synced_at, operated_at, account_at, host_at, carried_of, carried_at, row_of, row_items_at, row_at};

use crate::fault::RowFault;
use crate::items::{
    read_bool, read_byte, read_bytes, read_count, read_null_or_text, read_number, read_text,
};
use crate::parts::{read_detail, read_effect, read_fetched, read_moment, read_repo, read_whole};
use crate::reader::ItemReader;
use relay_row::{Carried, CarriedAccount, Operated, Row, Taken, is_row};

#[tactic(auto, unfolding(crate::specs::Reading::taken_at))]
fn read_taken(reader: &mut ItemReader, count: u64) -> Result<Taken, RowFault>
    ensures { Reads (λ x. (x, reader.new.rest.now)) result (taken_at count reader.old.rest.now) }
{
    let host = read_text(reader)?;
    let host_seq = read_number(reader)?;
    let did = read_text(reader)?;
    let kind = read_byte(reader)?;
    let code = read_byte(reader)?;
    let refusal = read_detail(reader, code)?;
    let seq = read_number(reader)?;
    let message = read_bytes(reader)?;
    let effect = read_effect(reader)?;
    let fetched = read_fetched(reader)?;
    let moment = read_moment(reader, 11, count)?;
    Ok(Taken {
        host,
        host_seq,
        did,
        kind,
        refusal,
        seq,
        message,
        effect,
        fetched,
        moment,
    })
}

#[tactic(auto, unfolding(crate::specs::Reading::synced_at))]
fn read_synced(reader: &mut ItemReader, count: u64) -> Result<Row, RowFault>
    ensures { Reads (λ x. (x, reader.new.rest.now)) result (synced_at count reader.old.rest.now) }
{
    let did = read_text(reader)?;
    let whole = read_whole(reader)?;
    let moment = read_moment(reader, 3, count)?;
    Ok(Row::Synced(did, whole, moment))
}

#[tactic(auto, unfolding(crate::specs::Reading::operated_at))]
fn read_operated(reader: &mut ItemReader, count: u64) -> Result<Operated, RowFault>
    ensures { Reads (λ x. (x, reader.new.rest.now)) result (operated_at count reader.old.rest.now) }
{
    let did = read_text(reader)?;
    let down = read_bool(reader)?;
    let seq = read_number(reader)?;
    let message = read_bytes(reader)?;
    let moment = read_moment(reader, 5, count)?;
    Ok(Operated {
        did,
        down,
        seq,
        message,
        moment,
    })
}

#[tactic(auto, unfolding(crate::specs::Reading::account_at))]
fn read_account(reader: &mut ItemReader) -> Result<CarriedAccount, RowFault>
    ensures { Reads (λ x. (x, reader.new.rest.now)) result (account_at reader.old.rest.now) }
{
    let did = read_text(reader)?;
    let active = read_bool(reader)?;
    let status = read_null_or_text(reader)?;
    let down = read_bool(reader)?;
    let repo = read_repo(reader)?;
    Ok(CarriedAccount {
        did,
        active,
        status,
        down,
        repo,
    })
}

#[tactic(auto, unfolding(crate::specs::Reading::host_at))]
fn read_host(reader: &mut ItemReader) -> Result<Carried, RowFault>
    ensures { Reads (λ x. (x, reader.new.rest.now)) result (host_at reader.old.rest.now) }
{
    let host = read_text(reader)?;
    let cursor = read_number(reader)?;
    Ok(Carried::Host(host, cursor))
}

fn read_carried_items(reader: &mut ItemReader, count: u64, which: u8) -> Result<Carried, RowFault>
    ensures { Reads (λ x. (x, reader.new.rest.now)) result
        (carried_of count which reader.old.rest.now) }
{
    if which == 0 && count == 3 {
        let seq = read_number(reader)?;
        return Ok(Carried::Last(seq));
    }
    if which == 1 && count == 4 {
        return read_host(reader);
    }
    if which == 2 && count == 7 {
        let account = read_account(reader)?;
        return Ok(Carried::Account(account));
    }
    Err(RowFault::BadRow)
}

#[tactic(auto, unfolding(crate::specs::Reading::carried_at))]
fn read_carried(reader: &mut ItemReader, count: u64) -> Result<Carried, RowFault>
    ensures { Reads (λ x. (x, reader.new.rest.now)) result (carried_at count reader.old.rest.now) }
{
    let which = read_byte(reader)?;
    read_carried_items(reader, count, which)
}

fn read_row_of(reader: &mut ItemReader, count: u64, which: u8) -> Result<Row, RowFault>
    ensures { Reads (λ x. (x, reader.new.rest.now)) result
        (row_of count which reader.old.rest.now) }
{
    match which {
        1 => {
            let taken = read_taken(reader, count)?;
            Ok(Row::Taken(taken))
        }
        2 => read_synced(reader, count),
        3 => {
            let operated = read_operated(reader, count)?;
            Ok(Row::Operated(operated))
        }
        4 => {
            let carried = read_carried(reader, count)?;
            Ok(Row::Carried(carried))
        }
        _ => Err(RowFault::BadRow),
    }
}

#[tactic(auto, unfolding(crate::specs::Reading::row_items_at))]
fn read_row_items(reader: &mut ItemReader, count: u64) -> Result<Row, RowFault>
    ensures { Reads (λ x. (x, reader.new.rest.now)) result
        (row_items_at count reader.old.rest.now) }
{
    let which = read_byte(reader)?;
    read_row_of(reader, count, which)
}

/// A well formed row.
#[tactic(auto, unfolding(crate::specs::Reading::row_at))]
pub fn read_row(reader: &mut ItemReader) -> Result<Row, RowFault>
    ensures { Reads (λ x. (x, reader.new.rest.now)) result (row_at reader.old.rest.now) }
{
    let count = read_count(reader)?;
    let row = read_row_items(reader, count)?;
    if is_row(&row) {
        Ok(row)
    } else {
        Err(RowFault::BadRow)
    }
}
