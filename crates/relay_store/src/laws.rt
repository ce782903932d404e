//! Laws of images of journals, each the contract of a function that does nothing.

ghost use Rattle.std.specs.Prelude.{◌≡◌, List, ℕ};
ghost use Rattle.relay_row.specs.declared.row.Row.{Row};
ghost use Rattle.relay_store.specs.Journals.{IsBadPairJournalAt, IsPairImageOf};

/// The bytes of two disks are an image of one journal at most.
pub fn pairs_have_one_journal()
    ensures { (J K : List Row) (one two : List ℕ) → IsPairImageOf J one two
        → IsPairImageOf K one two → J ≡ K }
{}

/// Two disks that show a fault are no image of a journal.
pub fn faults_are_no_journals()
    ensures { (place : ℕ) (one two : List ℕ) (J : List Row) → IsPairImageOf J one two
        → IsBadPairJournalAt place one two → ⊥ }
{}

/// Two disks show a fault at one place at most.
pub fn faults_have_one_place()
    ensures { (place other : ℕ) (one two : List ℕ) → IsBadPairJournalAt place one two
        → IsBadPairJournalAt other one two → place ≡ other }
{}
