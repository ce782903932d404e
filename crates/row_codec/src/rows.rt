//! Rows in their order.

ghost use Rattle.std.specs.Prelude.{◌≡◌, ◌==◌, ◌∷◌, ◌++◌, [], length, slice_get, option_map, OnOk, OnErr};

use at_cid::Memory;
use relay_row::Row;
use std::alloc::Global;
use std::marker::Model;

/// Rows in the order of the journal.
#[derive(Debug, Drop)]
pub struct Rows {
    rows: Vec<Row>,
}

impl Model for Rows {
    ghost use Rattle.std.specs.Prelude.{List};
    ghost use Rattle.relay_row.specs.declared.row.Row.{Row};

    ghost Value = { List Row };

    ghost view = { λ a. a.rows.items };
}

impl Rows {
    /// No rows.
    pub fn new(alloc: Global) -> Rows
        ensures { result ≡ [] }
    {
        Rows {
            rows: Vec::new(alloc),
        }
    }

    /// How many there are.
    pub fn len(&self) -> usize
        ensures { result ≡ length self.now }
    {
        self.rows.len()
    }

    /// Whether there are none.
    pub fn is_empty(&self) -> bool
        ensures { result ≡ (length self.now == 0) }
    {
        self.rows.is_empty()
    }

    /// The row at a place, counted from 0.
    pub fn get(&self, place: usize) -> Option<&Row>
        ensures { option_map (λ row. row.now) result ≡ slice_get self.now place }
    {
        self.rows.get(place)
    }

    /// The rows.
    pub fn as_slice(&self) -> &[Row]
        ensures { result.now ≡ self.now }
    {
        self.rows.as_slice()
    }

    /// The rows, as a vector that may be taken apart.
    pub fn into_vec(self) -> Vec<Row>
        ensures { result.items ≡ self }
    {
        self.rows
    }

    /// Adds a row behind the others.
    pub fn push(&mut self, row: Row) -> Result<(), Memory>
        ensures ok { OnOk result (self.new ≡ self.old ++ row ∷ []) }
        ensures err { OnErr result (self.new ≡ self.old) }
    {
        self.rows.push(row)?;
        Ok(())
    }
}
