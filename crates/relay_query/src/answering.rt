//! What is replied to a request.

ghost use Rattle.std.specs.Prelude.{◌≡◌, List, ℕ, codes, IfOk};
ghost use Rattle.form_urlencoded.specs.Form.{raw_pairs as pairs_in};
ghost use Rattle.web_request.specs.Requests.{first_named};
ghost use Rattle.relay_row.specs.declared.row.Row.{Row as TheRow};
ghost use Rattle.account_state.specs.Dids.{accounts};
ghost use Rattle.account_state.specs.Entries.{entry};
ghost use Rattle.account_state.specs.State.{state_of};
ghost use Rattle.relay_core.specs.Entries.{Holds};
ghost use Rattle.relay_query.specs.Replies.{IsReplyTo, about, latest_commit_reply, commit_reply, cursor_param, did_param, limit_in, page_reply, reply_at, reply_text, reply_to, status_reply};
ghost use Rattle.relay_query.specs.Seen.{seen};

use crate::account::{commit_value, error_of, is_available, status_of, status_value};
use crate::listing::page;
use crate::params::{cursor_in, did_in, limit_in};
use crate::replies::{bad_request, not_found, ok, reply_text};
use crate::reply::Reply;
use account_state::{Account, Repo};
use at_cid::{Memory, Octets};
use relay_core::Core;
use std::alloc::Global;
use web_request::{parts_of, request_line, value_of};

/// The name of the error where a request can't be read, or a parameter isn't what it must be.
const INVALID_REQUEST: &str = "InvalidRequest";

/// The name of the error where there is no such repository.
const REPO_NOT_FOUND: &str = "RepoNotFound";

// A page of the list, by a query.
fn page_reply(alloc: Global, core: &Core, query: &[u8]) -> Result<Reply, Memory>
    ensures { IfOk result (λ reply. (rows : List TheRow) → Holds core.now rows
        → seen reply ≡ page_reply (accounts rows)
        (limit_in (first_named (codes "limit") (pairs_in query.now)))
        (cursor_param (first_named (codes "cursor") (pairs_in query.now)))) }
{
    let limit = value_of(alloc, query, "limit")?;
    let cursor = value_of(alloc, query, "cursor")?;
    match (limit_in(&limit), cursor_in(&cursor)) {
        (Some(limit), Some(cursor)) => {
            let body = page(alloc, core, limit, cursor)?;
            Ok(ok(body))
        }
        _ => bad_request(alloc, INVALID_REQUEST),
    }
}

// The status of an account.
fn status_reply(alloc: Global, core: &Core, did: &str) -> Result<Reply, Memory>
    ensures { IfOk result (λ reply.
        seen reply ≡ status_reply did.now (entry core.now.accounts did.now)) }
{
    match core.account(did) {
        Some(account) => {
            let body = status_value(alloc, did, account)?;
            Ok(ok(body))
        }
        None => bad_request(alloc, REPO_NOT_FOUND),
    }
}

// The newest commit of an account, where it is available.
fn commit_reply(alloc: Global, core: &Core, did: &str) -> Result<Reply, Memory>
    ensures { IfOk result (λ reply.
        seen reply ≡ commit_reply (entry core.now.accounts did.now)) }
{
    match core.account(did) {
        Some(account) if is_available(account) => newest_commit(alloc, account),
        Some(account) => bad_request(alloc, error_of(status_of(account))),
        None => bad_request(alloc, REPO_NOT_FOUND),
    }
}

// The newest commit of an account's repository.
fn newest_commit(alloc: Global, account: &Account) -> Result<Reply, Memory>
    ensures { IfOk result (λ reply. seen reply ≡ latest_commit_reply (state_of account.now).repo) }
{
    match account.repo() {
        Repo::Good(head) => {
            let body = commit_value(alloc, &head)?;
            Ok(ok(body))
        }
        Repo::Missing | Repo::Lost(_) => bad_request(alloc, REPO_NOT_FOUND),
    }
}

// The status of the account that a query names.
fn status_of_query(alloc: Global, core: &Core, query: &[u8]) -> Result<Reply, Memory>
    ensures { IfOk result (λ reply. seen reply
        ≡ about (λ did. status_reply did (entry core.now.accounts did))
        (did_param (first_named (codes "did") (pairs_in query.now)))) }
{
    let value = value_of(alloc, query, "did")?;
    match did_in(&value) {
        Some(did) => status_reply(alloc, core, did),
        None => bad_request(alloc, INVALID_REQUEST),
    }
}

// The newest commit of the account that a query names.
fn commit_of_query(alloc: Global, core: &Core, query: &[u8]) -> Result<Reply, Memory>
    ensures { IfOk result (λ reply. seen reply
        ≡ about (λ did. commit_reply (entry core.now.accounts did))
        (did_param (first_named (codes "did") (pairs_in query.now)))) }
{
    let value = value_of(alloc, query, "did")?;
    match did_in(&value) {
        Some(did) => commit_reply(alloc, core, did),
        None => bad_request(alloc, INVALID_REQUEST),
    }
}

// The reply to a query at a path.
fn reply_at(alloc: Global, core: &Core, path: &[u8], query: &[u8]) -> Result<Reply, Memory>
    ensures { IfOk result (λ reply. (rows : List TheRow) → Holds core.now rows
        → seen reply ≡ reply_at rows path.now (pairs_in query.now)) }
{
    if path == b"/xrpc/com.atproto.sync.listRepos".as_slice() {
        page_reply(alloc, core, query)
    } else if path == b"/xrpc/com.atproto.sync.getRepoStatus".as_slice() {
        status_of_query(alloc, core, query)
    } else if path == b"/xrpc/com.atproto.sync.getLatestCommit".as_slice() {
        commit_of_query(alloc, core, query)
    } else {
        not_found(alloc)
    }
}

// The reply to a method and a target.
fn reply_to(alloc: Global, core: &Core, method: &[u8], target: &[u8]) -> Result<Reply, Memory>
    ensures { IfOk result (λ reply. (rows : List TheRow) → Holds core.now rows
        → seen reply ≡ reply_to rows method.now target.now) }
{
    if method != b"GET".as_slice() {
        return bad_request(alloc, INVALID_REQUEST);
    }
    let (path, query) = parts_of(target);
    reply_at(alloc, core, path, query)
}

// The reply to a request.
fn reply_of(alloc: Global, core: &Core, request: &[u8]) -> Result<Reply, Memory>
    ensures { IfOk result (λ reply. (rows : List TheRow) → Holds core.now rows
        → IsReplyTo rows request.now (reply_text (seen reply))) }
{
    match request_line(request) {
        Some(line) => reply_to(alloc, core, line.method, line.target),
        None => bad_request(alloc, INVALID_REQUEST),
    }
}

/// The whole reply to a request, by the state behind a journal: the bytes of its status line, its
/// header fields and its body.
///
/// The queries are `com.atproto.sync.listRepos`, `getRepoStatus` and `getLatestCommit` of the AT
/// Protocol's Lexicons, by `GET`. A request counts where it begins with a whole head of at most 64
/// header fields (RFC 9112); what stands behind the head isn't looked at. Every request that can't
/// be read, has another method or a parameter that isn't what it must be is answered 400
/// `InvalidRequest`, and every other path 404 `NotFound`. A page lists from 1 to 1,000 accounts,
/// 500 where the request doesn't say. An error says that there was no memory for the reply, and
/// nothing else does.
pub fn answer(alloc: Global, core: &Core, request: &[u8]) -> Result<Octets, Memory>
    ensures { IfOk result (λ reply. (rows : List TheRow) → Holds core.now rows
        → IsReplyTo rows request.now reply) }
{
    let reply = reply_of(alloc, core, request)?;
    reply_text(alloc, &reply)
}
