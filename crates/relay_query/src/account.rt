//! What is replied of an account.

ghost use Rattle.std.specs.Prelude.{◌≡◌, IfOk, Some, option_map};
ghost use Rattle.serde_json.specs.View.{view};
ghost use Rattle.account_state.specs.State.{state_of};
ghost use Rattle.account_state.specs.declared.repo.Repo.{Repo as TheRepo};
ghost use Rattle.relay_query.specs.Accounts.{is_available, rev_of, status_name};
ghost use Rattle.relay_query.specs.Bodies.{commit_value, repo_value, status_value};
ghost use Rattle.relay_query.specs.Replies.{error_of};

use account_state::{Account, Repo};
use at_cid::{Memory, TEXT_LEN, link_text};
use at_event::Head;
use at_syntax::TID_LEN;
use json_text::{no_members, put_some_text, put_text, put_value};
use serde_json::Value;
use std::alloc::Global;

/// Whether an account is active at its host, and not taken down here.
pub(crate) fn is_available(account: &Account) -> bool
    ensures { result ≡ is_available (state_of account.now) }
{
    account.is_active() && !account.is_down()
}

/// Why it isn't, where that is known.
pub(crate) fn status_of(account: &Account) -> Option<&str>
    ensures { option_map (λ text. text.now) result ≡ status_name (state_of account.now) }
{
    if account.is_down() {
        Some("takendown")
    } else if account.is_active() {
        None
    } else {
        account.status()
    }
}

/// The name of the error where an account of this status isn't available.
pub(crate) fn error_of(status: Option<&str>) -> &'static str
    ensures { result.now ≡ error_of (option_map (λ text. text.now) status.entry) }
{
    let Some(status) = status else {
        return "RepoNotFound";
    };
    if status == "takendown" {
        "RepoTakendown"
    } else if status == "suspended" {
        "RepoSuspended"
    } else if status == "deactivated" {
        "RepoDeactivated"
    } else {
        "RepoNotFound"
    }
}

/// An account in the list, whose repository is known.
pub(crate) fn repo_value(
    alloc: Global,
    did: &str,
    account: &Account,
    head: &Head,
) -> Result<Value, Memory>
    requires { (state_of account.now).repo ≡ TheRepo.Good head.now }
    ensures { IfOk result (λ value. view value ≡ repo_value (did.now, state_of account.now)) }
{
    let (mut link, mut rev) = ([0; TEXT_LEN], [0; TID_LEN]);
    let mut members = no_members(alloc);
    put_value(
        alloc,
        &mut members,
        "active",
        Value::Bool(is_available(account)),
    )?;
    put_text(alloc, &mut members, "did", did)?;
    put_text(
        alloc,
        &mut members,
        "head",
        link_text(&head.commit, &mut link),
    )?;
    put_text(alloc, &mut members, "rev", head.rev.write_text(&mut rev))?;
    put_some_text(alloc, &mut members, "status", status_of(account))?;
    Ok(Value::Object(members))
}

/// The newest commit of a repository.
pub(crate) fn commit_value(alloc: Global, head: &Head) -> Result<Value, Memory>
    ensures { IfOk result (λ value. view value ≡ commit_value head.now) }
{
    let (mut link, mut rev) = ([0; TEXT_LEN], [0; TID_LEN]);
    let mut members = no_members(alloc);
    put_text(
        alloc,
        &mut members,
        "cid",
        link_text(&head.commit, &mut link),
    )?;
    put_text(alloc, &mut members, "rev", head.rev.write_text(&mut rev))?;
    Ok(Value::Object(members))
}

// The text of the revision of a repository, where it is known.
fn rev_of<'a>(repo: &Repo, room: &'a mut [u8; TID_LEN]) -> Option<&'a str>
    ensures { option_map (λ text. text.now) result ≡ rev_of repo.now }
{
    match repo {
        Repo::Good(head) => Some(head.rev.write_text(room)),
        Repo::Missing | Repo::Lost(_) => None,
    }
}

/// The status of an account.
pub(crate) fn status_value(alloc: Global, did: &str, account: &Account) -> Result<Value, Memory>
    ensures { IfOk result (λ value. view value ≡ status_value did.now (state_of account.now)) }
{
    let mut rev = [0; TID_LEN];
    let mut members = no_members(alloc);
    put_value(
        alloc,
        &mut members,
        "active",
        Value::Bool(is_available(account)),
    )?;
    put_text(alloc, &mut members, "did", did)?;
    put_some_text(
        alloc,
        &mut members,
        "rev",
        rev_of(&account.repo(), &mut rev),
    )?;
    put_some_text(alloc, &mut members, "status", status_of(account))?;
    Ok(Value::Object(members))
}
