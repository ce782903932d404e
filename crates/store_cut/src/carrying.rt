//! The rows that carry a state over.

ghost use Rattle.std.specs.Prelude.{◌≡◌, ◌≢◌, ◌≤◌, ◌∷◌, [], ℕ, List, Some, IsTrue, IfOk, OnOk, OnErr};
ghost use Rattle.at_cid.specs.Counts.{Rose};
ghost use Rattle.relay_disk.specs.Moments.{LeavesOnly};
ghost use Rattle.gate_log.specs.Build.{IsBuiltOn, IsClosed};
ghost use Rattle.relay_row.specs.declared.row.Row.{Row as TheRow};
ghost use Rattle.account_state.specs.Dids.{dids};
ghost use Rattle.account_state.specs.State.{state_of};
ghost use Rattle.host_state.specs.Table.{listed};
ghost use Rattle.relay_core.specs.Entries.{Holds};
ghost use Rattle.cut_law.specs.Cut.{account_row, account_rows, carried, host_rows, repo_over};
ghost use Rattle.store_cut.specs.Rereading.{IsOfSome};
ghost use Rattle.store_cut.specs.Rewriting.{AllShort, CopiedAs, RewriteHasNoRoom, IsOfAdding, IsCopied};
ghost use Rattle.relay_store.specs.declared.fault.StoreFault.{StoreFault as TheFault};

use crate::rewriting::{Rewrite, put_row};
use account_state::{Account, Repo};
use at_cid::{Memory, Words};
use host_state::Hosts;
use relay_core::Core;
use relay_disk::Disk;
use relay_row::{Carried, CarriedAccount, CarriedRepo, Row};
use relay_store::StoreFault;
use std::alloc::Global;

fn repo_over(repo: Repo) -> CarriedRepo
    ensures { result ≡ repo_over repo }
{
    match repo {
        Repo::Missing => CarriedRepo::Missing,
        Repo::Good(head) => CarriedRepo::Good(head),
        Repo::Lost(rev) => CarriedRepo::Lost(rev),
    }
}

// The row that carries an account over.
fn account_row(alloc: Global, did: &str, account: &Account) -> Result<Row, Memory>
    ensures { IfOk result (λ row. row ≡ account_row did.now (state_of account.now)) }
{
    let status = match account.status() {
        Some(status) => Some(Words::from_str(alloc, status)?),
        None => None,
    };
    Ok(Row::Carried(Carried::Account(CarriedAccount {
        did: Words::from_str(alloc, did)?,
        active: account.is_active(),
        status,
        down: account.is_down(),
        repo: repo_over(account.repo()),
    })))
}

// Carries a host over, where its cursor is positive.
fn carry_host<D: Disk>(
    alloc: Global,
    name: &str,
    cursor: u64,
    rewrite: &mut Rewrite,
    other: &mut D,
) -> Result<(), StoreFault>
    requires on { IsTrue D.tells → IsBuiltOn (D.view other.old) rewrite.old.build }
    requires short { AllShort (host_rows ((name.now, cursor) ∷ [])) }
    ensures copied { OnOk result (IsCopied D.tells
        (host_rows ((name.now, cursor) ∷ [])) rewrite.old rewrite.new (D.view other.old)
        (D.view other.new)) }
    ensures run { IsTrue D.tells → LeavesOnly IsClosed (D.view other.old) (D.view other.new) }
    ensures disk { result ≡ Err StoreFault.Disk
        → Rose (D.view other.old).faults (D.view other.new).faults }
    ensures no_fault { OnErr result (result ≢ Err StoreFault.Disk
        → (D.view other.new).faults ≡ (D.view other.old).faults) }
    ensures counts { (D.view other.old).faults ≤ (D.view other.new).faults }
    ensures full { (e : ℕ) → result ≡ Err (StoreFault.Full e)
        → RewriteHasNoRoom rewrite.old.build.end rewrite.old.build.most
        (host_rows ((name.now, cursor) ∷ [])) e }
    ensures few { (f : TheFault) → result ≡ Err f → IsOfAdding f }
{
    if cursor == 0 {
        return Ok(());
    }
    let host = Words::from_str(alloc, name)?;
    put_row(rewrite, other, Row::Carried(Carried::Host(host, cursor)))
}

// Carries the hosts over, in first-seen order.
fn carry_hosts<D: Disk>(
    alloc: Global,
    hosts: &Hosts,
    rewrite: &mut Rewrite,
    other: &mut D,
) -> Result<(), StoreFault>
    requires on { IsTrue D.tells → IsBuiltOn (D.view other.old) rewrite.old.build }
    requires short { AllShort (host_rows (listed hosts.now)) }
    ensures copied { OnOk result (IsCopied D.tells (host_rows (listed hosts.now))
        rewrite.old rewrite.new (D.view other.old) (D.view other.new)) }
    ensures run { IsTrue D.tells → LeavesOnly IsClosed (D.view other.old) (D.view other.new) }
    ensures disk { result ≡ Err StoreFault.Disk
        → Rose (D.view other.old).faults (D.view other.new).faults }
    ensures no_fault { OnErr result (result ≢ Err StoreFault.Disk
        → (D.view other.new).faults ≡ (D.view other.old).faults) }
    ensures counts { (D.view other.old).faults ≤ (D.view other.new).faults }
    ensures full { (e : ℕ) → result ≡ Err (StoreFault.Full e)
        → RewriteHasNoRoom rewrite.old.build.end rewrite.old.build.most
        (host_rows (listed hosts.now)) e }
    ensures few { (f : TheFault) → result ≡ Err f → IsOfAdding f }
{
    'each: for place in 0..hosts.len() {
        let Some((name, cursor)) = hosts.at(place) else {
            unreachable!()
        };
        carry_host(alloc, name, cursor, rewrite, other)?;
    }
    Ok(())
}

// Carries the accounts over, in the order of their DIDs.
fn carry_accounts<D: Disk>(
    alloc: Global,
    core: &Core,
    rewrite: &mut Rewrite,
    other: &mut D,
) -> Result<(), StoreFault>
    requires on { IsTrue D.tells → IsBuiltOn (D.view other.old) rewrite.old.build }
    requires known { IsOfSome core.now }
    ensures copied { OnOk result (CopiedAs D.tells (λ rows. (A : List TheRow) → Holds core.now A
        → rows ≡ account_rows A (dids A))
        rewrite.old rewrite.new (D.view other.old) (D.view other.new)) }
    ensures run { IsTrue D.tells → LeavesOnly IsClosed (D.view other.old) (D.view other.new) }
    ensures disk { result ≡ Err StoreFault.Disk
        → Rose (D.view other.old).faults (D.view other.new).faults }
    ensures no_fault { OnErr result (result ≢ Err StoreFault.Disk
        → (D.view other.new).faults ≡ (D.view other.old).faults) }
    ensures counts { (D.view other.old).faults ≤ (D.view other.new).faults }
    ensures full { (e : ℕ) → result ≡ Err (StoreFault.Full e) → (A : List TheRow) → Holds core.now A
        → RewriteHasNoRoom rewrite.old.build.end rewrite.old.build.most
        (account_rows A (dids A)) e }
    ensures few { (f : TheFault) → result ≡ Err f → IsOfAdding f }
{
    let mut did = "";
    'accounts: while let Some((name, account)) = core.next_after(did) {
        let row = account_row(alloc, name, account)?;
        put_row(rewrite, other, row)?;
        did = name;
    }
    Ok(())
}

/// Adds the rows that carry a state over. The state is of some journal, so that each of them is short enough for a body of its own.
pub(crate) fn carry<D: Disk>(
    alloc: Global,
    core: &Core,
    rewrite: &mut Rewrite,
    other: &mut D,
) -> Result<(), StoreFault>
    requires on { IsTrue D.tells → IsBuiltOn (D.view other.old) rewrite.old.build }
    requires known { IsOfSome core.now }
    ensures copied { OnOk result (CopiedAs D.tells (λ rows. (A : List TheRow) → Holds core.now A
        → rows ≡ carried A)
        rewrite.old rewrite.new (D.view other.old) (D.view other.new)) }
    ensures run { IsTrue D.tells → LeavesOnly IsClosed (D.view other.old) (D.view other.new) }
    ensures disk { result ≡ Err StoreFault.Disk
        → Rose (D.view other.old).faults (D.view other.new).faults }
    ensures no_fault { OnErr result (result ≢ Err StoreFault.Disk
        → (D.view other.new).faults ≡ (D.view other.old).faults) }
    ensures counts { (D.view other.old).faults ≤ (D.view other.new).faults }
    ensures full { (e : ℕ) → result ≡ Err (StoreFault.Full e) → (A : List TheRow) → Holds core.now A
        → RewriteHasNoRoom rewrite.old.build.end rewrite.old.build.most (carried A) e }
    ensures few { (f : TheFault) → result ≡ Err f → IsOfAdding f }
{
    let last = Row::Carried(Carried::Last(core.last_seq()));
    put_row(rewrite, other, last)?;
    carry_hosts(alloc, core.hosts(), rewrite, other)?;
    carry_accounts(alloc, core, rewrite, other)
}
