//! Laws of journals without one of their premises, none of which holds.

ghost use Rattle.law_premises.specs.Carrying.{CarriedMayBeUnsound};
ghost use Rattle.law_premises.specs.Checking.{ChecksMaySayOtherwise, CoveredMayBeRefused, LinkingMayBeWrong};
ghost use Rattle.law_premises.specs.Forming.{DecidedMayBeIllFormed, MadeMayBeIllFormed, OperatedMayBeIllFormed, SyncedMayBeIllFormed};
ghost use Rattle.law_premises.specs.Histories.{JournalsMayBeOthers, UnfoundedComeOn};
ghost use Rattle.law_premises.specs.Merges.{MergesMayDisagree};
ghost use Rattle.law_premises.specs.Runs.{OperatorsMayBeUnfaithful, RowsMayBeOfLost, RunsMayBeUnfaithful, RunsMayBeUnsound, StoresMayBeUnsound};

/// Without one of its premises, a run behind a sound journal may leave an unsound one.
pub fn runs_may_be_unsound()
    ensures { RunsMayBeUnsound }
{}

/// Without one of its premises, what a store took behind a sound journal may leave an unsound one.
pub fn stores_may_be_unsound()
    ensures { StoresMayBeUnsound }
{}

/// Without one of its premises, what the rows of a run send out may read as something else.
pub fn runs_may_be_unfaithful()
    ensures { RunsMayBeUnfaithful }
{}

/// Rows of no run may accept a commit of an account that was lost.
pub fn rows_may_be_of_lost()
    ensures { RowsMayBeOfLost }
{}

/// Checks that don't open rightly may be wrong, however rightly they link.
pub fn linking_may_be_wrong()
    ensures { LinkingMayBeWrong }
{}

/// Checks that don't open rightly, or don't link rightly, may say what no call answers.
pub fn checks_may_say_otherwise()
    ensures { ChecksMaySayOtherwise }
{}

/// Without one of its premises, a covered commit may be refused for more than its home and its signature.
pub fn covered_may_be_refused()
    ensures { CoveredMayBeRefused }
{}

/// Without one of its premises, a sound journal whose front gives way to other rows may become unsound.
pub fn carried_may_be_unsound()
    ensures { CarriedMayBeUnsound }
{}

/// Without one of its premises, a later journal may be of other rows.
pub fn journals_may_be_others()
    ensures { JournalsMayBeOthers }
{}

/// A premise of the law of histories that isn't wanted: what the disks of an open store stand for.
pub fn unfounded_come_on()
    ensures { UnfoundedComeOn }
{}

/// Without one of its premises, two merges may disagree.
pub fn merges_may_disagree()
    ensures { MergesMayDisagree }
{}

/// Without one of its premises, the row that is made of a message may be ill formed.
pub fn made_may_be_ill_formed()
    ensures { MadeMayBeIllFormed }
{}

/// Without one of its premises, the row of an account that is taken down or restored may be ill formed.
pub fn operated_may_be_ill_formed()
    ensures { OperatedMayBeIllFormed }
{}

/// Without one of its premises, the row of a repository may be ill formed.
pub fn synced_may_be_ill_formed()
    ensures { SyncedMayBeIllFormed }
{}

/// Without one of its premises, the row that is decided for answers to all questions may be ill formed.
pub fn decided_may_be_ill_formed()
    ensures { DecidedMayBeIllFormed }
{}

/// Without one of its premises, what operators' commands send out may read as something else.
pub fn operators_may_be_unfaithful()
    ensures { OperatorsMayBeUnfaithful }
{}
