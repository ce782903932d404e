//! The rows of a journal.

ghost use Rattle.std.specs.Prelude.{◌≡◌};
ghost use Rattle.relay_row.specs.Folds.{host_in, host_seq_in, did_of_row, seq_in};

use crate::carried::Carried;
use crate::fetched::Whole;
use crate::operated::Operated;
use crate::taken::Taken;
use at_cid::Words;

/// A row of a journal.
#[derive(Debug, Drop)]
pub enum Row {
    /// A message was taken.
    Taken(Taken),
    /// An account's repository was fetched at an operator's command.
    Synced(Words, Whole, Option<u64>),
    /// An operator spoke.
    Operated(Operated),
    /// The front of a journal that was cut.
    Carried(Carried),
}

impl Row {
    /// The host that it names, or the empty text.
    pub fn host(&self) -> &str
        ensures { result.now ≡ host_in self.now }
    {
        match self {
            Row::Taken(taken) => taken.host.as_str(),
            Row::Carried(Carried::Host(host, _)) => host.as_str(),
            Row::Synced(_, _, _) | Row::Operated(_) | Row::Carried(_) => "",
        }
    }

    /// How far the stream of the host that it names was taken, or 0.
    pub fn host_seq(&self) -> u64
        ensures { result ≡ host_seq_in self.now }
    {
        match self {
            Row::Taken(taken) => taken.host_seq,
            Row::Carried(Carried::Host(_, cursor)) => *cursor,
            Row::Synced(_, _, _) | Row::Operated(_) | Row::Carried(_) => 0,
        }
    }

    /// The account that it names, or the empty text.
    pub fn did(&self) -> &str
        ensures { result.now ≡ did_of_row self.now }
    {
        match self {
            Row::Taken(taken) => taken.did.as_str(),
            Row::Synced(did, _, _) => did.as_str(),
            Row::Operated(operated) => operated.did.as_str(),
            Row::Carried(Carried::Account(account)) => account.did.as_str(),
            Row::Carried(_) => "",
        }
    }

    /// The number that it gives or carries, or 0.
    pub fn seq(&self) -> u64
        ensures { result ≡ seq_in self.now }
    {
        match self {
            Row::Taken(taken) => taken.given(),
            Row::Synced(_, whole, _) => whole.seq,
            Row::Operated(operated) => operated.seq,
            Row::Carried(Carried::Last(seq)) => *seq,
            Row::Carried(_) => 0,
        }
    }
}
