//! What is kept of a repository, judged.

ghost use Rattle.std.specs.Prelude.{◌≡◌, ◌≢◌, ◌<◌, IfOk, IfErr, OnOk, Err, None, Ok, Some};
ghost use Rattle.at_cid.specs.declared.limits.TheConstants.{NUMBERS};
ghost use Rattle.at_cid.specs.Link.{IsNodeLink};
ghost use Rattle.at_car.specs.Blocks.{BlockMap};
ghost use Rattle.at_car.specs.Finishing.{IsKeptOf};
ghost use Rattle.at_commit.specs.Commit.{commit_of};
ghost use Rattle.mst_whole.specs.Walks.{is_node_block, HasKeys};
ghost use Rattle.event_checks.specs.Opening.{read_object};
ghost use Rattle.event_checks.specs.Lines.{first_of};
ghost use Rattle.repo_sync.specs.Repository.{commit_lines, lags};
ghost use Rattle.repo_sync.specs.Scans.{IsNoObject, IsShown, IsTornAt, JudgesAs};

use crate::fault::RepoFault;
use crate::found::{Found, found_in};
use at_car::{Kept, first_root};
use at_cid::Cid;
use at_commit::{Commit, CommitFault};
use at_syntax::Tid;
use mst_whole::walk_kept;
use std::alloc::Global;

/// Whether the revision is below the least.
fn lags(least: Option<Tid>, rev: Tid) -> bool
    ensures { result ≡ lags least rev }
{
    match least {
        Some(least) => rev < least,
        None => false,
    }
}

/// The commit object that a block is.
fn read_commit(alloc: Global, block: &[u8]) -> Result<Commit, RepoFault>
    ensures object { IfOk result (λ commit. commit_of block.now ≡ Ok commit) }
    ensures data { IfOk result (λ commit. IsNodeLink commit.data_root) }
    ensures none { IfErr result (IsNoObject (read_object (commit_of block.now))) }
{
    match at_commit::read(alloc, block) {
        Ok(commit) => Ok(commit),
        Err(CommitFault::Memory) => Err(RepoFault::Memory),
        Err(_) => Err(RepoFault::BadCommit),
    }
}

/// The commit object that a block is, where it is the account's and not below the least revision.
fn find_commit(
    alloc: Global,
    block: &[u8],
    did: &str,
    least: Option<Tid>,
) -> Result<Commit, RepoFault>
    ensures shown { OnOk result (first_of (commit_lines did.now least (Some block.now)) ≡ None) }
    ensures object { IfOk result (λ commit. commit_of block.now ≡ Ok commit) }
    ensures data { IfOk result (λ commit. IsNodeLink commit.data_root) }
    ensures refused { IfErr result
        (IsShown (first_of (commit_lines did.now least (Some block.now)))) }
{
    let commit = read_commit(alloc, block)?;
    if commit.did.as_bytes() != did.as_bytes() {
        return Err(RepoFault::OtherDid);
    }
    if lags(least, commit.rev) {
        return Err(RepoFault::Lagging(commit.rev));
    }
    Ok(commit)
}

/// How many records the tree at a root has.
fn count_records(alloc: Global, kept: &Kept, root: &Cid) -> Result<u64, RepoFault>
    ensures whole { (blocks : BlockMap) → IsKeptOf is_node_block blocks kept.now
        → IsNodeLink root.now → IfOk result (HasKeys blocks root.now) }
    ensures torn { (blocks : BlockMap) → IsKeptOf is_node_block blocks kept.now
        → IfErr result (IsTornAt blocks root.now) }
    ensures most { IfOk result (λ records. records < NUMBERS) }
    ensures unfailed { result ≢ Err RepoFault.Failed }
{
    match walk_kept(alloc, kept, root) {
        Ok(records) => Ok(records),
        Err(fault) => Err(RepoFault::from(fault)),
    }
}

/// What is kept of a repository shows.
pub(crate) fn judge(
    alloc: Global,
    kept: &Kept,
    did: &str,
    least: Option<Tid>,
) -> Result<Found, RepoFault>
    ensures judges { (blocks : BlockMap) → IsKeptOf is_node_block blocks kept.now
        → JudgesAs did.now least blocks kept.now result }
    ensures records { IfOk result (λ found. found.records < NUMBERS) }
    ensures unfailed { result ≢ Err RepoFault.Failed }
{
    let Some(link) = first_root(&kept.roots) else {
        return Err(RepoFault::NoCommit);
    };
    let Some(block) = &kept.first else {
        return Err(RepoFault::NoCommit);
    };
    let commit = find_commit(alloc, block.as_slice(), did, least)?;
    let records = count_records(alloc, kept, &commit.data_root)?;
    Ok(found_in(link, block.try_clone()?, commit, records))
}
