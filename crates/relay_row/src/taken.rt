//! Messages that hosts sent, and what became of them.

ghost use Rattle.std.specs.Prelude.{◌≡◌};
ghost use Rattle.relay_row.specs.Folds.{seq_in};
ghost use Rattle.relay_row.specs.declared.row.Row.{Row};

use crate::fetched::Fetched;
use at_cid::{Octets, Words};
use at_event::{Head, Refusal};

/// What an accepted event does to its account.
#[derive(Debug, Drop)]
pub enum Effect {
    /// Nothing.
    Nothing,
    /// The repository has this head.
    Repo(Head),
    /// Whether the account is active, and why not.
    Account(bool, Option<Words>),
}

/// A message that a host sent, and what became of it.
#[derive(Debug, Drop)]
pub struct Taken {
    /// The host.
    pub host: Words,
    /// The message's number in the host's stream.
    pub host_seq: u64,
    /// The account, or the empty text where the event didn't read.
    pub did: Words,
    /// 0 where the event didn't read; else 1 `#commit`, 2 `#sync`, 3 `#identity`, 4 `#account`.
    pub kind: u8,
    /// Why it was refused, if it was.
    pub refusal: Option<Refusal>,
    /// The number under which it goes out, or 0.
    pub seq: u64,
    /// The message that goes out, or none.
    pub message: Octets,
    /// What it does to the account.
    pub effect: Effect,
    /// The fetch that followed.
    pub fetched: Fetched,
    /// When it was taken, in microseconds since 1970; rows of old have none.
    pub moment: Option<u64>,
}

impl Taken {
    /// The number that it gives, to its own message or to that of the repository that was fetched, or 0.
    pub fn given(&self) -> u64
        ensures { result ≡ seq_in (Row.Taken self.now) }
    {
        if self.seq > 0 {
            return self.seq;
        }
        match &self.fetched {
            Fetched::Whole(whole) => whole.seq,
            Fetched::NotAsked | Fetched::Absent | Fetched::Refused(_) => 0,
        }
    }
}
