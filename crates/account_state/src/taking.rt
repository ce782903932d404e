//! The DIDs that rows name.

ghost use Rattle.std.specs.Prelude.{◌≡◌};
ghost use Rattle.relay_row.specs.Folds.{did_of_row, host_in, host_seq_in};
ghost use Rattle.account_state.specs.Folds.{moved};
ghost use Rattle.account_state.specs.State.{State};

use at_cid::Words;
use relay_row::{Carried, Row};
use std::alloc::Global;
use std::mem;

/// The DID that a row names, or the empty text, taken out of the row. Takes no memory.
pub(crate) fn take_did(alloc: Global, row: &mut Row) -> Words
    ensures did { result ≡ did_of_row row.old }
    ensures moves { (a : State) → moved a row.new ≡ moved a row.old }
    ensures host { host_in row.new ≡ host_in row.old }
    ensures host_seq { host_seq_in row.new ≡ host_seq_in row.old }
{
    let empty = Words::new(alloc);
    match row {
        Row::Taken(taken) => mem::replace(&mut taken.did, empty),
        Row::Synced(did, _, _) => mem::replace(did, empty),
        Row::Operated(operated) => mem::replace(&mut operated.did, empty),
        Row::Carried(Carried::Account(account)) => mem::replace(&mut account.did, empty),
        Row::Carried(Carried::Last(_) | Carried::Host(_, _)) => empty,
    }
}
