//! Which events are shown.

ghost use Rattle.std.specs.Prelude.{◌≡◌, List, Some, option_map};
ghost use Rattle.account_state.specs.State.{state_of};
ghost use Rattle.relay_row.specs.declared.row.Row.{Row as TheRow};
ghost use Rattle.row_peek.specs.Peeked.{Sees};
ghost use Rattle.relay_core.specs.Entries.{Holds};
ghost use Rattle.relay_store.specs.Shown.{is_gone, is_hidden, is_shown};

use account_state::Account;
use relay_core::Core;
use row_peek::Peeked;

// Whether by this status the account was taken down or deleted.
fn is_gone(status: Option<&str>) -> bool
    ensures { result ≡ is_gone (option_map (λ text. text.now) status.entry) }
{
    match status {
        Some(text) => text == "takendown" || text == "deleted",
        None => false,
    }
}

// Whether what an account has isn't shown.
fn is_hidden(account: &Account) -> bool
    ensures { result ≡ is_hidden (state_of account.now) }
{
    account.is_down() || (!account.is_active() && is_gone(account.status()))
}

/// Whether the event of the row is shown of which this is seen.
pub(crate) fn is_shown(core: &Core, peeked: &Peeked) -> bool
    ensures { (J : List TheRow) (row : TheRow) → Holds core.now J → Sees row (Some peeked.now)
        → result ≡ is_shown J row }
{
    if !peeked.of_repo {
        return true;
    }
    match core.account(peeked.did) {
        Some(account) => !is_hidden(account),
        None => true,
    }
}
