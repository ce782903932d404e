//! The rows of a body, one after the other.

ghost use Rattle.row_codec.specs.Left.{BeginsBody, TakesNext};

use crate::fault::RowFault;
use crate::items::read_count;
use crate::reader::ItemReader;
use crate::table::read_row;
use at_cid::ghost_bytes;
use relay_row::{MOST_ROWS, Row};
use std::alloc::Global;
use std::marker::Model;

/// The rows of a body, read one after the other.
#[derive(Drop)]
pub struct BodyRows<'a> {
    reader: ItemReader<'a>,
    left: u64,
}

impl<'a> Model for BodyRows<'a> {
    ghost use Rattle.row_codec.specs.Left.{RowsLeft};

    ghost Value = { RowsLeft };

    ghost view = { λ a. record { count = a.left; bytes = a.reader.rest.now } };
}

impl<'a> BodyRows<'a> {
    /// Those of a body. `BadRow`: it doesn't begin as a list of 1 to 64 items does.
    pub fn of(alloc: Global, body: &'a [u8]) -> Result<BodyRows<'a>, RowFault>
        ensures { BeginsBody result body.now }
    {
        let mut reader = ItemReader { alloc, rest: body };
        let left = read_count(&mut reader)?;
        if left == 0 || left > MOST_ROWS as u64 {
            return Err(RowFault::BadRow);
        }
        Ok(BodyRows { reader, left })
    }

    /// The next row. `BadRow`: no rows are all that is left. After an error all is left that was.
    pub fn next(&mut self) -> Result<Option<Row>, RowFault>
        ensures { TakesNext result self.old self.new }
    {
        ghost_bytes(self.reader.rest);
        if self.left == 0 && self.reader.rest.is_empty() {
            return Ok(None);
        }
        if self.left == 0 {
            return Err(RowFault::BadRow);
        }
        let bytes = self.reader.rest;
        match read_row(&mut self.reader) {
            Ok(row) => {
                self.left -= 1;
                Ok(Some(row))
            }
            Err(fault) => {
                self.reader.rest = bytes;
                Err(fault)
            }
        }
    }
}
