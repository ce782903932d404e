//! The relay's state.

use crate::stage::Stage;
use account_state::Accounts;
use host_state::Hosts;

/// What the rows of a journal make known: the accounts, the hosts and the last number.
#[derive(Drop)]
pub struct Core {
    pub(crate) accounts: Accounts,
    pub(crate) hosts: Hosts,
    pub(crate) last: u64,
    pub(crate) stage: Stage,
}
