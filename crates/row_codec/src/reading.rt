//! The rows of a body.

ghost use Rattle.std.specs.Prelude.{◌≡◌};
ghost use Rattle.row_codec.specs.Bodies.{IsBody};
ghost use Rattle.row_codec.specs.Readers.{Reads};
ghost use Rattle.row_codec.specs.Reading.{rows_at, few, rows_in};
ghost use Rattle.row_codec.specs.Answers.{ReadsBody};

use crate::fault::RowFault;
use crate::items::read_count;
use crate::reader::ItemReader;
use crate::rows::Rows;
use crate::table::read_row;
use relay_row::MOST_ROWS;
use std::alloc::Global;

fn read_counted(reader: &mut ItemReader, count: u64) -> Result<Rows, RowFault>
    ensures { Reads (λ x. (x, reader.new.rest.now)) result (rows_at count reader.old.rest.now) }
{
    let mut rows = Rows::new(reader.alloc);
    'rows: for _ in 0..count {
        rows.push(read_row(reader)?)?;
    }
    Ok(rows)
}

fn read_few(reader: &mut ItemReader, count: u64) -> Result<Rows, RowFault>
    ensures { Reads (λ x. (x, reader.new.rest.now)) result (few count reader.old.rest.now) }
{
    if count >= 1 && count <= MOST_ROWS as u64 {
        read_counted(reader, count)
    } else {
        Err(RowFault::BadRow)
    }
}

#[tactic(auto, unfolding(crate::specs::Reading::rows_in))]
fn read_all(alloc: Global, body: &[u8]) -> Result<Rows, RowFault>
    ensures { Reads (λ rows. rows) result (rows_in body.now) }
{
    let mut reader = ItemReader { alloc, rest: body };
    let count = read_count(&mut reader)?;
    let rows = read_few(&mut reader, count)?;
    if reader.rest.is_empty() {
        Ok(rows)
    } else {
        Err(RowFault::BadRow)
    }
}

/// The rows of a body. `BadRow`: the body isn't the encoding of 1 to 64 well formed rows.
///
/// No message is copied but into its row.
pub fn read_rows(alloc: Global, body: &[u8]) -> Result<Rows, RowFault>
    ensures { ReadsBody result body.now }
{
    read_all(alloc, body)
}
