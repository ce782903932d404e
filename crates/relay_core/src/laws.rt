//! Laws of decisions, each the contract of a function that does nothing.

ghost use Rattle.relay_core.specs.Laws.{AsksOnce, BlocksReturn, EntriesAreAccounts, NextDecides, ReadyDecides, RowsShow, WorldsRun};

/// No question is asked twice about a message, so at most seven are.
pub fn asks_once()
    ensures { AsksOnce }
{}

/// With all answers, an event is decided by the first refusal that applies, and the row that is made of this decision is
/// the one that is decided.
pub fn next_decides()
    ensures { NextDecides }
{}

/// The answers that a row shows make that row.
pub fn rows_show()
    ensures { RowsShow }
{}

/// The block of a commit is read back from the relay's own message of it.
pub fn blocks_return()
    ensures { BlocksReturn }
{}

/// A run in a world is a run for the answers that its rows show.
pub fn worlds_run()
    ensures { WorldsRun }
{}

/// A ready commit is accepted where its home and its signature are good.
pub fn ready_decides()
    ensures { ReadyDecides }
{}

/// Where the state stands for a journal, the entry of a DID is its account, where a row names it.
pub fn entries_are_accounts()
    ensures { EntriesAreAccounts }
{}
