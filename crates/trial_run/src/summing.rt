//! The summary of a trial.

ghost use Rattle.std.specs.Prelude.{◌≡◌, ◌↔◌, ◌≤◌, ◌<◌, ◌+◌, ◌++◌, List, ℕ, true, IfOk, OnOk, codes};
ghost use Rattle.account_state.specs.Folds.{account as account_in};
ghost use Rattle.relay_core.specs.Entries.{Holds};
ghost use Rattle.relay_gen.specs.Names.{generated_did};
ghost use Rattle.relay_row.specs.Folds.{last_seq};
ghost use Rattle.relay_row.specs.declared.row.Row.{Row as TheRow};
ghost use Rattle.report_lines.specs.Lines.{numbered};
ghost use Rattle.trial_run.specs.Summary.{AreShownSame, IsShownSame, first_line, known_below, one_known, root_of_repo, roots_below, summary};

use account_state::{Account, Repo};
use at_cid::{Memory, Octets, cid_of};
use relay_gen::did_of;
use relay_store::Store;
use report_lines::{account_line, add_link, add_number};
use std::alloc::Global;

// How many accounts a made history has.
const ACCOUNTS: u8 = 16;

fn add_word(line: &mut Octets, text: &[u8], number: u64) -> Result<(), Memory>
    ensures { OnOk result (line.new ≡ line.old ++ numbered text.now number) }
{
    line.extend(text)?;
    add_number(line, number)
}

// Adds the root of a repository's tree, and says whether its last commit is known.
fn add_root(roots: &mut Octets, repo: &Repo) -> Result<u64, Memory>
    ensures known { IfOk result (λ known. known ≡ one_known repo.now) }
    ensures few { IfOk result (λ known. known ≤ 1) }
    ensures roots { OnOk result (roots.new ≡ roots.old ++ root_of_repo repo.now) }
{
    match repo {
        Repo::Missing | Repo::Lost(_) => Ok(0),
        Repo::Good(head) => {
            roots.extend(head.data_root.as_bytes())?;
            Ok(1)
        }
    }
}

// Of the account of a number.
fn repo_of(store: &Store, account: u8) -> Repo
    requires { account < 16 }
    ensures { (J : List TheRow) → Holds store.now.core J
        → result ≡ (account_in (generated_did account) J).repo }
{
    match store.account(did_of(account)) {
        Some(found) => found.repo(),
        None => Repo::Missing,
    }
}

// The roots of the accounts' trees, and how many of them have a commit.
fn add_roots(store: &Store, roots: &mut Octets) -> Result<u64, Memory>
    ensures known { IfOk result (λ known. (J : List TheRow) → Holds store.now.core J
        → known ≡ known_below 16 J) }
    ensures roots { OnOk result ((J : List TheRow) → Holds store.now.core J
        → roots.new ≡ roots.old ++ roots_below 16 J) }
{
    let mut known = 0;
    'accounts: for account in 0..ACCOUNTS {
        known += add_root(roots, &repo_of(store, account))?;
    }
    Ok(known)
}

fn add_first_line(
    text: &mut Octets,
    start: u64,
    n: u32,
    known: u64,
    events: u64,
    keys: u64,
) -> Result<(), Memory>
    ensures { OnOk result ((J : List TheRow) → known ≡ known_below 16 J → events ≡ last_seq J
        → text.new ≡ text.old ++ first_line start n keys J) }
{
    add_word(text, b"trial ", start)?;
    add_word(text, b" ", u64::from(n))?;
    add_word(text, b" accounts ", known)?;
    add_word(text, b" events ", events)?;
    add_word(text, b" keys ", keys)?;
    text.extend(b"\n")
}

// Whether both orders came to the same accounts, and what goes in front of the heads.
fn add_verdict(text: &mut Octets, same: bool) -> Result<(), Memory>
    ensures { OnOk result (same ≡ true → text.new ≡ text.old ++ codes "merge same\nheads ") }
{
    if same {
        text.extend(b"merge same\nheads ")
    } else {
        text.extend(b"merge differs\nheads ")
    }
}

/// The summary of a trial, of the journal of a store.
pub(crate) fn sum_up(
    alloc: Global,
    start: u64,
    n: u32,
    keys: u64,
    store: &Store,
    same: bool,
) -> Result<Octets, Memory>
    ensures { IfOk result (λ text. same ≡ true → (J : List TheRow) → Holds store.now.core J
        → text ≡ summary start n keys J) }
{
    let mut roots = Octets::new(alloc);
    let known = add_roots(store, &mut roots)?;
    let mut text = Octets::new(alloc);
    add_first_line(&mut text, start, n, known, store.last_seq(), keys)?;
    add_verdict(&mut text, same)?;
    add_link(&mut text, &cid_of(roots.as_slice()))?;
    text.extend(b"\n")?;
    Ok(text)
}

// Whether two stores say the same of the account of a number.
fn is_same(alloc: Global, one: &Store, other: &Store, account: u8) -> Result<bool, Memory>
    requires { account < 16 }
    ensures { IfOk result (λ same. (J K : List TheRow) → Holds one.now.core J
        → Holds other.now.core K
        → (same ≡ true) ↔ IsShownSame account J K) }
{
    let did = did_of(account);
    let line = account_line(alloc, did, one.account(did))?;
    let others = account_line(alloc, did, other.account(did))?;
    Ok(line.as_slice() == others.as_slice())
}

/// Whether two stores say the same of all accounts of a made history.
pub(crate) fn are_same(alloc: Global, one: &Store, other: &Store) -> Result<bool, Memory>
    ensures same { IfOk result (λ same. (J K : List TheRow) → Holds one.now.core J
        → Holds other.now.core K
        → ((did : List ℕ) → account_in did J ≡ account_in did K) → same ≡ true) }
    ensures exact { IfOk result (λ same. (J K : List TheRow) → Holds one.now.core J
        → Holds other.now.core K
        → (same ≡ true) ↔ AreShownSame J K) }
{
    for account in 0..ACCOUNTS {
        if !is_same(alloc, one, other, account)? {
            return Ok(false);
        }
    }
    Ok(true)
}
