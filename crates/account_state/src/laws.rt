//! Laws of accounts, each the contract of a function that does nothing.

ghost use Rattle.account_state.specs.Dids.{DidsAreNamed};
ghost use Rattle.account_state.specs.Laws.{AccountsJoin};

/// The account behind a journal in two halves.
pub fn accounts_join()
    ensures { AccountsJoin }
{}

/// The DIDs of a journal ascend, and are those that its rows name.
pub fn dids_are_named()
    ensures { DidsAreNamed }
{}
