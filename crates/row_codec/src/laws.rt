//! Laws of bodies, each the contract of a function that does nothing.

ghost use Rattle.row_codec.specs.Laws.{BodiesTellRows, RowsJoin};

/// No body is that of two lists of rows.
pub fn bodies_tell_rows()
    ensures { BodiesTellRows }
{}

/// Rows after rows are encoded after them.
pub fn rows_join()
    ensures { RowsJoin }
{}
