//! An operator's commands on accounts.

ghost use Rattle.std.specs.Prelude.{◌≡◌, ◌+◌, ◌<◌, IfOk};
ghost use Rattle.at_cid.specs.declared.limits.TheConstants.{NUMBERS};
ghost use Rattle.relay_core.specs.Entries.{account_in, state_in};
ghost use Rattle.relay_core.specs.Operating.{operate_refusal, operated_message, operated_as, sync_refusal, fetch_refusal};

use crate::journal_state::Core;
use crate::standing::{is_active, is_down};
use account_state::Account;
use at_cid::{Memory, Octets, Words};
use at_event::{Refusal, account_frame};
use relay_row::{Fetched, Operated};
use std::alloc::Global;

/// Why nothing is taken over of what a fetch found, if nothing is.
pub fn fetch_refusal(fetched: &Fetched) -> Option<Refusal>
    ensures { result ≡ fetch_refusal fetched.now }
{
    match fetched {
        Fetched::NotAsked | Fetched::Absent => Some(Refusal::NoRepository),
        Fetched::Refused(number) => Some(Refusal::RepositoryRefused(*number)),
        Fetched::Whole(_) => None,
    }
}

fn message(
    alloc: Global,
    account: Option<&Account>,
    did: &str,
    down: bool,
    time: &str,
    seq: u64,
) -> Result<Octets, Memory>
    requires { seq < NUMBERS }
    ensures { IfOk result (λ made. made
        ≡ operated_message (state_in account.entry) down did.now time.now seq) }
{
    if down {
        return account_frame(alloc, did, false, Some("takendown"), time, seq);
    }
    match account {
        Some(account) => {
            account_frame(alloc, did, account.is_active(), account.status(), time, seq)
        }
        None => account_frame(alloc, did, true, None, time, seq),
    }
}

impl Core {
    /// Why an account isn't taken down, or not restored, if it isn't.
    pub fn operate_refusal(&self, did: &str, down: bool) -> Option<Refusal>
        ensures { result ≡ operate_refusal (account_in self.now did.now) down }
    {
        let is_down = is_down(self.account(did));
        match down {
            true if is_down => Some(Refusal::AlreadyDown),
            false if !is_down => Some(Refusal::NotDown),
            _ => None,
        }
    }

    /// The row of an account that is taken down or restored, behind the last number. `time` is that
    /// of the event.
    pub fn operated(
        &self,
        alloc: Global,
        did: &str,
        down: bool,
        time: &str,
        moment: Option<u64>,
    ) -> Result<Operated, Memory>
        requires { self.now.last + 1 < NUMBERS }
        ensures { IfOk result (λ made. made
            ≡ operated_as self.now.last
            (account_in self.now did.now) did.now down time.now moment) }
    {
        let seq = self.last + 1;
        let message = message(alloc, self.account(did), did, down, time, seq)?;
        Ok(Operated {
            did: Words::from_str(alloc, did)?,
            down,
            seq,
            message,
            moment,
        })
    }

    /// Why an account's repository isn't fetched at an operator's command, if it isn't.
    pub fn sync_refusal(&self, did: &str) -> Option<Refusal>
        ensures { result ≡ sync_refusal (account_in self.now did.now) }
    {
        let account = self.account(did);
        if !is_active(account) {
            return Some(Refusal::Inactive);
        }
        if is_down(account) {
            return Some(Refusal::TakenDown);
        }
        None
    }
}
