//! Laws of tapes, each the contract of a function that does nothing.

ghost use Rattle.tape.specs.Laws.{OneThingIsShown, MoreBytesShowTheSame, CutRecordsAreCut, OneAnswer};

/// Bytes show one thing at their front: a record, nothing, or one of the faults.
pub fn one_thing_is_shown()
    ensures { OneThingIsShown }
{}

/// Whatever follows, bytes that show a record, a bad name or a message that is too long show the same.
pub fn more_bytes_show_the_same()
    ensures { MoreBytesShowTheSame }
{}

/// A record that lacks bytes at its end, but isn't empty, is cut.
pub fn cut_records_are_cut()
    ensures { CutRecordsAreCut }
{}

/// The input and the limit of a reader tell what [`Tape::next`](crate::Tape::next) answers, unless a read failed or memory was
/// wanted.
pub fn one_answer()
    ensures { OneAnswer }
{}
