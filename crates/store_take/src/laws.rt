//! Laws of lines, each the contract of a function that does nothing.

ghost use Rattle.store_take.specs.Lines.{LinesReport};

/// The lines of what was answered to a run are those of its report.
pub fn lines_are_the_reports()
    ensures { LinesReport }
{}
