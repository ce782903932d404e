//! The list of accounts.

ghost use Rattle.std.specs.Prelude.{◌≡◌, ◌<◌, ◌++◌, ◌∷◌, List, ℕ, [], codes, Some, None, true, false, IfOk, IfSome, option_map};
ghost use Rattle.serde_json.specs.View.{view, items_view};
ghost use Rattle.serde_json.specs.Written.{has_float};
ghost use Rattle.serde_json.specs.Data.{array};
ghost use Rattle.json_text.specs.Values.{object_with};
ghost use Rattle.relay_row.specs.declared.row.Row.{Row as TheRow};
ghost use Rattle.account_state.specs.Dids.{accounts};
ghost use Rattle.account_state.specs.Entries.{entry, is_before};
ghost use Rattle.account_state.specs.State.{state_of};
ghost use Rattle.relay_core.specs.Entries.{Holds};
ghost use Rattle.relay_query.specs.Accounts.{is_repo_good};
ghost use Rattle.relay_query.specs.Bodies.{page_value, text_member};
ghost use Rattle.relay_query.specs.Replies.{listed};
ghost use Rattle.relay_query.specs.Seen.{has_good};

use crate::account::repo_value;
use account_state::{Account, Repo};
use at_cid::Memory;
use json_text::{no_members, put_some_text, put_value};
use relay_core::Core;
use serde_json::Value;
use std::alloc::Global;

// Whether the repository of an account is known.
fn is_good(account: &Account) -> bool
    ensures { result ≡ is_repo_good (state_of account.now).repo }
{
    matches!(account.repo(), Repo::Good(_))
}

// The next account behind a DID whose repository is known. Each account that is passed costs a look
// into the table, which takes a logarithm of its length.
fn next_good<'a>(core: &'a Core, behind: &str) -> Option<(&'a str, &'a Account)>
    ensures found { IfSome result (λ x.
        entry core.now.accounts x.0.now ≡ Some (state_of x.1.now)) }
    ensures good { IfSome result (λ x. is_repo_good (state_of x.1.now).repo ≡ true) }
    ensures above { IfSome result (λ x. is_before behind.now x.0.now ≡ true) }
    ensures least { IfSome result (λ x. (name : List ℕ)
        → is_before behind.now name ≡ true → is_before name x.0.now ≡ true
        → has_good core.now name ≡ false) }
    ensures none { result ≡ None → (name : List ℕ)
        → is_before behind.now name ≡ true → has_good core.now name ≡ false }
{
    let mut place = behind;
    'accounts: while let Some((did, account)) = core.next_after(place) {
        if is_good(account) {
            return Some((did, account));
        }
        place = did;
    }
    None
}

// A page of these accounts, with the last DID as cursor where more follow.
fn page_of(alloc: Global, last: Option<&str>, repos: Vec<Value>) -> Result<Value, Memory>
    ensures { IfOk result (λ value. view value ≡ object_with (
        text_member (codes "cursor") (option_map (λ text. text.now) last.entry)
        ++ (codes "repos", array (items_view repos.items)) ∷ [])) }
{
    let mut members = no_members(alloc);
    put_some_text(alloc, &mut members, "cursor", last)?;
    put_value(alloc, &mut members, "repos", Value::Array(repos))?;
    Ok(Value::Object(members))
}

/// The page of the accounts behind a DID whose repository is known, at most so many of them. It
/// costs a logarithm of the table's length for each account that is passed on the way, and nothing
/// for those behind it.
pub(crate) fn page(alloc: Global, core: &Core, limit: usize, cursor: &str) -> Result<Value, Memory>
    requires { 0 < limit }
    ensures plain { IfOk result (λ value. has_float (view value) ≡ false) }
    ensures page { IfOk result (λ value. (rows : List TheRow) → Holds core.now rows
        → view value ≡ page_value limit (listed cursor.now (accounts rows))) }
{
    let mut repos = Vec::new(alloc);
    let mut last = cursor;
    'repos: while let Some((did, account)) = next_good(core, last) {
        if repos.len() >= limit {
            return page_of(alloc, Some(last), repos);
        }
        let Repo::Good(head) = account.repo() else {
            unreachable!()
        };
        repos.push(repo_value(alloc, did, account, &head)?)?;
        last = did;
    }
    page_of(alloc, None, repos)
}
