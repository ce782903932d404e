//! Laws of repositories, each the contract of a function that does nothing.

ghost use Rattle.repo_sync.specs.Laws.{OneAnswer, SomeAnswer};

/// A repository comes to one answer at most.
pub fn one_answer()
    ensures { OneAnswer }
{}

/// All bytes of a repository come to an answer.
pub fn some_answer()
    ensures { SomeAnswer }
{}
