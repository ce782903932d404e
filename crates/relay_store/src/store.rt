//! The store: a journal on the log of a pair of disks, and what is known of it.

use crate::pending::Pending;
use account_state::Account;
use event_window::Window;
use gate_log::{Log, Side};
use host_state::Hosts;
use relay_core::Core;

/// A journal on the log of a pair of disks, which are handed to each call, and what is known of it: the state, and where the events
/// stand. Its parts are for what takes, gives out and cuts: their contracts say which journal it has then.
#[derive(Drop)]
pub struct Store {
    /// The log.
    pub log: Log,
    /// The disk of the pair that it is on.
    pub side: Side,
    /// The state.
    pub core: Core,
    /// Where the events stand.
    pub window: Window,
    /// The body that is put together.
    pub pending: Pending,
}

impl Store {
    ghost use Rattle.std.specs.Prelude.{◌≡◌, ◌<◌, ◌+◌, map, option_map};
    ghost use Rattle.account_state.specs.Entries.{entry};
    ghost use Rattle.account_state.specs.State.{state_of};
    ghost use Rattle.event_window.specs.Held.{first_or};
    ghost use Rattle.event_window.specs.declared.place.Place.{Place as ThePlace};
    ghost use Rattle.at_cid.specs.declared.limits.TheConstants.{NUMBERS};

    /// The account of a DID, where a row names it.
    pub fn account(&self, did: &str) -> Option<&Account>
        ensures { option_map (λ account. state_of account.now) result
            ≡ entry self.now.core.accounts did.now }
    {
        self.core.account(did)
    }

    /// The hosts, in first-seen order, each with its cursor.
    pub fn hosts(&self) -> &Hosts
        ensures { result.now ≡ self.now.core.hosts }
    {
        self.core.hosts()
    }

    /// The state.
    pub fn core(&self) -> &Core
        ensures { result.now ≡ self.now.core }
    {
        &self.core
    }

    /// The last number, or 0.
    pub fn last_seq(&self) -> u64
        ensures { result ≡ self.now.core.last }
    {
        self.core.last_seq()
    }

    /// The least number that it holds, and where it holds none, the one behind the last.
    pub fn oldest(&self) -> u64
        ensures { self.now.core.last < NUMBERS
            → result ≡ first_or (map (λ (p : ThePlace). p.seq) self.now.window.places)
            (self.now.core.last + 1) }
    {
        match self.window.first() {
            Some(place) => place.seq,
            None => self.last_seq().saturating_add(1),
        }
    }

    /// Whether no call has answered `Disk` since it was opened.
    pub fn is_open(&self) -> bool
        ensures { result ≡ self.now.log.is_open }
    {
        self.log.is_open()
    }

    /// The disk of the pair that it is on, which is to be handed to each call.
    pub fn side(&self) -> Side
        ensures { result ≡ self.now.side }
    {
        self.side
    }
}
