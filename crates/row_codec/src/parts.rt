//! What rows are made of, read item by item.

ghost use Rattle.std.specs.Prelude.{◌≡◌, ◌<◌};
ghost use Rattle.row_codec.specs.Readers.{Reads};
ghost use Rattle.row_codec.specs.Reading.{head_at, whole_items_at, whole_at, plain, one_detail, two_details, detail_at, account_effect, effect_of, effect_at, number_or_whole, fetched_at, repo_of, repo_at, moment_at};

use crate::fault::RowFault;
use crate::items::{
    read_bool, read_bytes, read_count, read_link, read_null_or_rev, read_null_or_text, read_number,
    read_place, read_rev,
};
use crate::reader::ItemReader;
use at_event::{BAD_NODE, Head, NOT_COVERED, OTHER_DATA, OTHER_OP, Refusal};
use relay_row::{CarriedRepo, Effect, Fetched, Whole};

#[tactic(auto, unfolding(crate::specs::Reading::head_at))]
pub fn read_head(reader: &mut ItemReader) -> Result<Head, RowFault>
    ensures { Reads (λ x. (x, reader.new.rest.now)) result (head_at reader.old.rest.now) }
{
    let rev = read_rev(reader)?;
    let data_root = read_link(reader)?;
    let commit = read_link(reader)?;
    Ok(Head {
        rev,
        data_root,
        commit,
    })
}

#[tactic(auto, unfolding(crate::specs::Reading::whole_items_at))]
fn read_whole_items(reader: &mut ItemReader) -> Result<Whole, RowFault>
    ensures { Reads (λ x. (x, reader.new.rest.now)) result (whole_items_at reader.old.rest.now) }
{
    let seq = read_number(reader)?;
    let head = read_head(reader)?;
    let records = read_number(reader)?;
    let message = read_bytes(reader)?;
    Ok(Whole {
        seq,
        head,
        records,
        message,
    })
}

#[tactic(auto, unfolding(crate::specs::Reading::whole_at))]
pub fn read_whole(reader: &mut ItemReader) -> Result<Whole, RowFault>
    ensures { Reads (λ x. (x, reader.new.rest.now)) result (whole_at reader.old.rest.now) }
{
    let count = read_count(reader)?;
    if count == 6 {
        read_whole_items(reader)
    } else {
        Err(RowFault::BadRow)
    }
}

#[tactic(auto, unfolding(crate::specs::Reading::plain))]
fn plain(code: u8) -> Option<Option<Refusal>>
    ensures { result ≡ plain code }
{
    if code == 0 {
        return Some(None);
    }
    let refusal = Refusal::plain(code)?;
    Some(Some(refusal))
}

#[tactic(auto, unfolding(crate::specs::Reading::one_detail))]
fn read_one_detail(reader: &mut ItemReader, code: u8) -> Result<Option<Refusal>, RowFault>
    ensures { Reads (λ x. (x, reader.new.rest.now)) result (one_detail code reader.old.rest.now) }
{
    match code {
        BAD_NODE => {
            let link = read_link(reader)?;
            Ok(Some(Refusal::BadNode(link)))
        }
        OTHER_OP => {
            let place = read_place(reader)?;
            Ok(Some(Refusal::OtherOp(place)))
        }
        NOT_COVERED => {
            let place = read_place(reader)?;
            Ok(Some(Refusal::NotCovered(place)))
        }
        _ => Err(RowFault::BadRow),
    }
}

#[tactic(auto, unfolding(crate::specs::Reading::two_details))]
fn read_two_details(reader: &mut ItemReader, code: u8) -> Result<Option<Refusal>, RowFault>
    ensures { Reads (λ x. (x, reader.new.rest.now)) result (two_details code reader.old.rest.now) }
{
    if code != OTHER_DATA {
        return Err(RowFault::BadRow);
    }
    let want = read_link(reader)?;
    let got = read_link(reader)?;
    Ok(Some(Refusal::OtherData(want, got)))
}

#[tactic(auto, unfolding(crate::specs::Reading::detail_at))]
pub fn read_detail(reader: &mut ItemReader, code: u8) -> Result<Option<Refusal>, RowFault>
    ensures { Reads (λ x. (x, reader.new.rest.now)) result (detail_at code reader.old.rest.now) }
{
    let count = read_count(reader)?;
    match count {
        0 => match plain(code) {
            Some(refusal) => Ok(refusal),
            None => Err(RowFault::BadRow),
        },
        1 => read_one_detail(reader, code),
        2 => read_two_details(reader, code),
        _ => Err(RowFault::BadRow),
    }
}

#[tactic(auto, unfolding(crate::specs::Reading::account_effect))]
fn read_account_effect(reader: &mut ItemReader) -> Result<Effect, RowFault>
    ensures { Reads (λ x. (x, reader.new.rest.now)) result (account_effect reader.old.rest.now) }
{
    let active = read_bool(reader)?;
    let status = read_null_or_text(reader)?;
    Ok(Effect::Account(active, status))
}

fn read_effect_items(reader: &mut ItemReader, count: u64) -> Result<Effect, RowFault>
    ensures { Reads (λ x. (x, reader.new.rest.now)) result (effect_of count reader.old.rest.now) }
{
    match count {
        3 => {
            let head = read_head(reader)?;
            Ok(Effect::Repo(head))
        }
        2 => read_account_effect(reader),
        _ => Err(RowFault::BadRow),
    }
}

#[tactic(auto, unfolding(crate::specs::Reading::effect_at))]
pub fn read_effect(reader: &mut ItemReader) -> Result<Effect, RowFault>
    ensures { Reads (λ x. (x, reader.new.rest.now)) result (effect_at reader.old.rest.now) }
{
    let [first, rest @ ..] = reader.rest else {
        return Err(RowFault::BadRow);
    };
    if *first == 246 {
        reader.rest = rest;
        return Ok(Effect::Nothing);
    }
    let count = read_count(reader)?;
    read_effect_items(reader, count)
}

#[tactic(auto, unfolding(crate::specs::Reading::fetched_at))]
pub fn read_fetched(reader: &mut ItemReader) -> Result<Fetched, RowFault>
    ensures { Reads (λ x. (x, reader.new.rest.now)) result (fetched_at reader.old.rest.now) }
{
    let [first, rest @ ..] = reader.rest else {
        return Err(RowFault::BadRow);
    };
    if *first == 246 {
        reader.rest = rest;
        return Ok(Fetched::NotAsked);
    }
    if *first == 0 {
        reader.rest = rest;
        return Ok(Fetched::Absent);
    }
    if *first < 24 {
        reader.rest = rest;
        return Ok(Fetched::Refused(*first));
    }
    let whole = read_whole(reader)?;
    Ok(Fetched::Whole(whole))
}

fn read_repo_items(reader: &mut ItemReader, count: u64) -> Result<CarriedRepo, RowFault>
    ensures { Reads (λ x. (x, reader.new.rest.now)) result (repo_of count reader.old.rest.now) }
{
    match count {
        3 => {
            let head = read_head(reader)?;
            Ok(CarriedRepo::Good(head))
        }
        1 => {
            let rev = read_null_or_rev(reader)?;
            Ok(CarriedRepo::Lost(rev))
        }
        _ => Err(RowFault::BadRow),
    }
}

#[tactic(auto, unfolding(crate::specs::Reading::repo_at))]
pub fn read_repo(reader: &mut ItemReader) -> Result<CarriedRepo, RowFault>
    ensures { Reads (λ x. (x, reader.new.rest.now)) result (repo_at reader.old.rest.now) }
{
    let [first, rest @ ..] = reader.rest else {
        return Err(RowFault::BadRow);
    };
    if *first == 246 {
        reader.rest = rest;
        return Ok(CarriedRepo::Missing);
    }
    let count = read_count(reader)?;
    read_repo_items(reader, count)
}

/// A moment behind so many items, where there is one more.
#[tactic(auto, unfolding(crate::specs::Reading::moment_at))]
pub fn read_moment(
    reader: &mut ItemReader,
    others: u64,
    count: u64,
) -> Result<Option<u64>, RowFault>
    requires { others < 24 }
    ensures { Reads (λ x. (x, reader.new.rest.now)) result
        (moment_at others count reader.old.rest.now) }
{
    if count == others {
        return Ok(None);
    }
    if count != others + 1 {
        return Err(RowFault::BadRow);
    }
    let moment = read_number(reader)?;
    Ok(Some(moment))
}
