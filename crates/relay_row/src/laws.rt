//! Laws of rows, folds and journals, each the contract of a function that does nothing.

ghost use Rattle.relay_row.specs.Laws.{FoldsJoin, JournalsGrow, RowsAreTested};

/// [`is_row`](crate::is_row) finds the rows that are well formed, record by record.
pub fn rows_are_tested()
    ensures { RowsAreTested }
{}

/// The fold of a journal in two halves is the fold of the whole.
pub fn folds_join()
    ensures { FoldsJoin }
{}

/// Which rows a journal grows by.
pub fn journals_grow()
    ensures { JournalsGrow }
{}
