//! Laws of tables and of judges, each the contract of a function that does nothing.

ghost use Rattle.at_authority.specs.Laws.{TextTellsLines, TablesAreGood, OneLineIsBad, HomeLinesNameHomes, OtherLinesNameNone, CallsJoin, CallsPart, CallsFell, AnswersHaveRanks};

/// A text is a table of one list of lines at most.
pub fn text_tells_lines()
    ensures { TextTellsLines }
{}

/// A text that is a table has no bad line.
pub fn tables_are_good()
    ensures { TablesAreGood }
{}

/// A text has one first bad line at most.
pub fn one_line_is_bad()
    ensures { OneLineIsBad }
{}

/// A home line gives its DID its host, and no other DID any.
pub fn home_lines_name_homes()
    ensures { HomeLinesNameHomes }
{}

/// The other lines give no DID a home.
pub fn other_lines_name_none()
    ensures { OtherLinesNameNone }
{}

/// Calls of judges join: a call behind calls makes a longer list of them.
pub fn calls_join()
    ensures { CallsJoin }
{}

/// Calls of judges come apart at each place.
pub fn calls_part()
    ensures { CallsPart }
{}

/// Over any calls no authority comes back, and one falls exactly where its count of faults rises.
pub fn calls_fell()
    ensures { CallsFell }
{}

/// Each answer is that of an authority that lived in the beginning and stood no further back than the first in the end; the
/// last is that of the first in the end.
pub fn answers_have_ranks()
    ensures { AnswersHaveRanks }
{}
