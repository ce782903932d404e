//! The laws of cuts, each the contract of a function that does nothing.

ghost use Rattle.cut_law.specs.Laws.{CutsAreJournals, CutsOfCuts, CutsSayTheSame, CutsStaySound, FrontsAreFound, LivesKeep};
ghost use Rattle.cut_law.specs.Needed.{PremisesAreNeeded};

/// What follows from a journal follows from what cutting leaves of it.
pub fn cuts_say_the_same()
    ensures { CutsSayTheSame }
{}

/// What cutting a journal leaves is a journal with the events above the number.
pub fn cuts_are_journals()
    ensures { CutsAreJournals }
{}

/// A cut of a cut is the cut at the second number.
pub fn cuts_of_cuts()
    ensures { CutsOfCuts }
{}

/// What cutting a sound journal leaves is sound.
pub fn cuts_stay_sound()
    ensures { CutsStaySound }
{}

/// The front of a journal is found by one pass.
pub fn fronts_are_found()
    ensures { FrontsAreFound }
{}

/// What stays over rows that are added and cuts.
pub fn lives_keep()
    ensures { LivesKeep }
{}

/// Laws of cuts without one of their premises, none of which holds.
pub fn premises_are_needed()
    ensures { PremisesAreNeeded }
{}
