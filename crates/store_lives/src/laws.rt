//! The laws of a store's life, each the contract of a function that does nothing.

ghost use Rattle.std.specs.Prelude.{IsTrue};
ghost use Rattle.store_lives.specs.Laws.{AnswersAreKept, AnswersStay, LaterJournalsCome};

use relay_disk::Disk;

/// On disks that tell their content, each journal that an open store has comes from each earlier one by rows that were
/// added and by cuts.
pub fn later_journals_come<D: Disk>()
    ensures { IsTrue D.tells → LaterJournalsCome D.view D.tells }
{}

/// On disks that tell their content, what a call answered stands in the journal that its store then has.
pub fn answers_are_kept<D: Disk>()
    ensures { IsTrue D.tells → AnswersAreKept D.view D.tells }
{}

/// On disks that tell their content, each later journal comes from one that has what was answered at any step.
pub fn answers_stay<D: Disk>()
    ensures { IsTrue D.tells → AnswersStay D.view D.tells }
{}
