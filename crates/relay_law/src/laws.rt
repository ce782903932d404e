//! The laws of journals, each the contract of a function that does nothing.

ghost use Rattle.relay_law.specs.Laws.{CallsAnswerRight, CarriedStaySound, ChecksAreRight, CoveredAreAccepted, DecidedRowsAreFormed, FrontsAreSound, JournalsComeOn, JournalsStayFaithful, MadeRowsAreFormed, MergesAgree, OperatedRowsAreFormed, OperatorsAreFaithful, OperatorsStaySound, RunsAreFaithful, RunsAreReadBack, RunsFollowKnown, RunsStaySound, SentAreEvents, SomeChecksAreRight, SoundReplays, StoresStaySound, SyncedRowsAreFormed};
ghost use Rattle.relay_law.specs.Needed.{PremisesAreNeeded};

/// A run behind a sound journal leaves a sound journal.
pub fn runs_stay_sound()
    ensures { RunsStaySound }
{}

/// Each chain of a sound journal replays from its base.
pub fn sound_replays()
    ensures { SoundReplays }
{}

/// Each front of a sound journal is sound.
pub fn fronts_are_sound()
    ensures { FrontsAreSound }
{}

/// The rows that operators' commands make leave a sound journal sound.
pub fn operators_stay_sound()
    ensures { OperatorsStaySound }
{}

/// Checks that open and link rightly are right.
pub fn checks_are_right()
    ensures { ChecksAreRight }
{}

/// Some checks open and link rightly.
pub fn some_checks_are_right()
    ensures { SomeChecksAreRight }
{}

/// What the calls that check events answer is what checks that open and link rightly say.
pub fn calls_answer_right()
    ensures { CallsAnswerRight }
{}

/// The events that hosts sent are made of the fields of their payloads.
pub fn sent_are_events()
    ensures { SentAreEvents }
{}

/// A store's run behind a sound journal leaves a sound journal, whatever bytes the hosts sent.
pub fn stores_stay_sound()
    ensures { StoresStaySound }
{}

/// Two merges of the same hosts' streams agree on all but the numbers given.
pub fn merges_agree()
    ensures { MergesAgree }
{}

/// A covered commit is accepted where its home and its signature are good.
pub fn covered_are_accepted()
    ensures { CoveredAreAccepted }
{}

/// What the rows of a run send out is read as the events that they tell of, under the numbers that they got.
pub fn runs_are_read_back()
    ensures { RunsAreReadBack }
{}

/// What the rows that operators' commands make send out is read as what they say, under the numbers that they got.
pub fn operators_are_faithful()
    ensures { OperatorsAreFaithful }
{}

/// No run accepts a commit of an account that was lost.
pub fn runs_follow_known()
    ensures { RunsFollowKnown }
{}

/// A sound journal whose front gives way to rows that carry it over stays sound.
pub fn carried_stay_sound()
    ensures { CarriedStaySound }
{}

/// Each journal that a later store has comes from an earlier one by rows added at its end and by cuts.
pub fn journals_come_on()
    ensures { JournalsComeOn }
{}

/// A message that is decided makes a row that is well formed and keeps the order of its journal.
pub fn made_rows_are_formed()
    ensures { MadeRowsAreFormed }
{}

/// The row that is decided for answers to all questions is well formed and keeps the order of its journal.
pub fn decided_rows_are_formed()
    ensures { DecidedRowsAreFormed }
{}

/// The row of an account that is taken down or restored is well formed and keeps the order of its journal.
pub fn operated_rows_are_formed()
    ensures { OperatedRowsAreFormed }
{}

/// The row of a repository that was fetched at an operator's command is well formed and keeps the order of its journal.
pub fn synced_rows_are_formed()
    ensures { SyncedRowsAreFormed }
{}

/// Laws of journals without one of their premises, none of which holds.
pub fn premises_are_needed()
    ensures { PremisesAreNeeded }
{}

/// What the rows of a run send out is read as what they keep, with the heads that they keep.
pub fn runs_are_faithful()
    ensures { RunsAreFaithful }
{}

/// The journals that a relay writes are faithful.
pub fn journals_stay_faithful()
    ensures { JournalsStayFaithful }
{}
