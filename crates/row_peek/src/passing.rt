//! The bytes behind the items of rows. Where no such item stands in front, any bytes may be answered, or none.

ghost use Rattle.std.specs.Prelude.{◌≡◌, ℕ, List, ◌++◌, true, Some, option_map};
ghost use Rattle.row_peek.specs.Passing.{past, content_behind, scalar_behind, scalars_behind, item_content_behind, item_behind, items_behind, row_behind, ends_before, ended_row};
ghost use Rattle.row_codec.specs.Bodies.{row_encoding, encoded_rows};
ghost use Rattle.relay_row.specs.Rules.{is_row};
ghost use Rattle.relay_row.specs.declared.row.Row.{Row};

use at_cbor::{take_argument, take_list_front};

/// How many bytes of a link stand behind its tag: the head of a byte string, a 0, and the link (DAG-CBOR specification, links).
const TAGGED: u64 = 39;

/// The bytes behind so many, where there are as many.
fn pass(count: u64, bytes: &[u8]) -> Option<&[u8]>
    ensures { option_map (λ rest. rest.now) result ≡ past count bytes.now }
{
    if bytes.len() < count as usize {
        return None;
    }
    Some(bytes.split_at(count as usize).1)
}

/// Behind what a head of this major type and argument announces: so many bytes of a string, or what of a link stands behind its tag.
fn behind_content(major: u8, argument: u64, bytes: &[u8]) -> Option<&[u8]>
    ensures { option_map (λ rest. rest.now) result ≡ content_behind major argument bytes.now }
{
    match major {
        2 | 3 => pass(argument, bytes),
        6 => pass(TAGGED, bytes),
        _ => Some(bytes),
    }
}

/// Behind a number, a string, a text, a link, true, false or null.
#[tactic(auto, unfolding(crate::specs::Passing::scalar_behind))]
fn behind_scalar(bytes: &[u8]) -> Option<&[u8]>
    ensures { option_map (λ rest. rest.now) result ≡ scalar_behind bytes.now }
{
    let [first, rest @ ..] = bytes else {
        return None;
    };
    let (argument, rest) = take_argument(*first % 32, rest)?;
    behind_content(*first / 32, argument, rest)
}

/// Behind so many of these.
pub(crate) fn behind_scalars(count: u64, bytes: &[u8]) -> Option<&[u8]>
    ensures { option_map (λ rest. rest.now) result ≡ scalars_behind count bytes.now }
{
    let mut rest = bytes;
    'scalars: for _ in 0..count {
        let Some(others) = behind_scalar(rest) else {
            return None;
        };
        rest = others;
    }
    Some(rest)
}

/// Behind what the head of an item of a row announces: where it is a list, so many of these.
fn behind_item_content(major: u8, argument: u64, bytes: &[u8]) -> Option<&[u8]>
    ensures { option_map (λ rest. rest.now) result ≡ item_content_behind major argument bytes.now }
{
    match major {
        4 => behind_scalars(argument, bytes),
        _ => behind_content(major, argument, bytes),
    }
}

/// Behind an item of a row: one that is no list, or a list of such.
#[tactic(auto, unfolding(crate::specs::Passing::item_behind))]
pub(crate) fn behind_item(bytes: &[u8]) -> Option<&[u8]>
    ensures { option_map (λ rest. rest.now) result ≡ item_behind bytes.now }
{
    let [first, rest @ ..] = bytes else {
        return None;
    };
    let (argument, rest) = take_argument(*first % 32, rest)?;
    behind_item_content(*first / 32, argument, rest)
}

/// Behind so many items of a row.
pub(crate) fn behind_items(count: u64, bytes: &[u8]) -> Option<&[u8]>
    ensures { option_map (λ rest. rest.now) result ≡ items_behind count bytes.now }
{
    let mut rest = bytes;
    'items: for _ in 0..count {
        let Some(others) = behind_item(rest) else {
            return None;
        };
        rest = others;
    }
    Some(rest)
}

/// Behind a list of items of a row.
#[tactic(auto, unfolding(crate::specs::Passing::row_behind))]
fn behind_list(bytes: &[u8]) -> Option<&[u8]>
    ensures { option_map (λ rest. rest.now) result ≡ row_behind bytes.now }
{
    let (count, rest) = take_list_front(bytes)?;
    behind_items(count, rest)
}

/// The bytes behind the row at the front of bytes. It may be None where no row stands there.
pub fn behind_row(bytes: &[u8]) -> Option<&[u8]>
    ensures { (row : Row) (rest : List ℕ) → is_row row ≡ true
        → bytes.now ≡ row_encoding row ++ rest → option_map (λ r. r.now) result ≡ Some rest }
{
    behind_list(bytes)
}

/// Whether there are no bytes, or such as begin with a list.
fn ends_before(bytes: &[u8]) -> bool
    ensures { result ≡ ends_before bytes.now }
{
    match bytes {
        [first, ..] => *first >= 0x80 && *first < 0xa0,
        [] => true,
    }
}

/// Behind a list of items of a row, where the bytes end there or another list begins.
#[tactic(auto, unfolding(crate::specs::Passing::ended_row))]
fn behind_ended_list(bytes: &[u8]) -> Option<&[u8]>
    ensures { option_map (λ rest. rest.now) result ≡ ended_row bytes.now }
{
    let rest = behind_list(bytes)?;
    if !ends_before(rest) {
        return None;
    }
    Some(rest)
}

/// The bytes behind the row at the front of bytes, where it ends as a row of a body does: with the bytes, or where another list begins.
pub fn behind_ended_row(bytes: &[u8]) -> Option<&[u8]>
    ensures found { option_map (λ rest. rest.now) result ≡ ended_row bytes.now }
    ensures row { (row : Row) (more : List Row) → is_row row ≡ true → bytes.now ≡ row_encoding row
        ++ encoded_rows more → option_map (λ rest. rest.now) result ≡ Some (encoded_rows more) }
{
    behind_ended_list(bytes)
}
