//! How an account stands: one that no row names is active and not down.

ghost use Rattle.std.specs.Prelude.{◌≡◌};
ghost use Rattle.relay_core.specs.Entries.{state_in};

use account_state::Account;

/// Whether its host serves it.
pub fn is_active(account: Option<&Account>) -> bool
    ensures { result ≡ (state_in account.entry).active }
{
    match account {
        Some(account) => account.is_active(),
        None => true,
    }
}

/// Whether the operator took it down.
pub fn is_down(account: Option<&Account>) -> bool
    ensures { result ≡ (state_in account.entry).down }
{
    match account {
        Some(account) => account.is_down(),
        None => false,
    }
}
