//! What a `#sync` makes of what is held.

ghost use Rattle.std.specs.Prelude.{◌≡◌, ◌≢◌, ◌≤◌, ℕ, List, IfOk, IfErr, IsTrue, IsErrOf, Err, Some, None, true, false};
ghost use Rattle.at_car.specs.Blocks.{AreLinked, BlockMap};
ghost use Rattle.at_car.specs.Car.{car_of};
ghost use Rattle.at_car.specs.Finishing.{IsKeptOf};
ghost use Rattle.at_car.specs.Standing.{root_of};
ghost use Rattle.at_cid.specs.Counts.{Rose};
ghost use Rattle.at_cid.specs.Link.{IsNodeLink};
ghost use Rattle.event_checks.specs.Opening.{root_in};
ghost use Rattle.mst_list.specs.Lists.{KeysOnly};
ghost use Rattle.mst_whole.specs.Walks.{is_node_block};
ghost use Rattle.mirror.specs.Held.{IsAfterSync};
ghost use Rattle.mirror.specs.Syncing.{IsMapOf, IsMapUnder, IsTreeAt};
ghost use Rattle.mirror.specs.declared.fault.MirrorFault.{MirrorFault};

use crate::fault::MirrorFault;
use crate::holding::Holding;
use at_car::{Blocks, CarFault, Kept};
use at_cid::{Cid, Cids, Memory};
use at_commit::CommitFault;
use at_event::SyncEvent;
use mst_list::Item;
use mst_view::{ViewFault, view};
use relay_io::{Repos, ReposFault};
use repo_sync::{RepoFault, scan_repo};
use std::alloc::Global;
use whole_map::WholeMap;

fn first_root(roots: &Cids) -> Option<Cid>
    ensures { result ≡ root_of roots.now }
{
    match roots.as_slice() {
        [root, ..] => Some(*root),
        [] => None,
    }
}

// The link of the commit that a `#sync` states, where its blocks are a CAR with a root.
fn stated_link(alloc: Global, sync: &SyncEvent) -> Result<Option<Cid>, Memory>
    ensures { IfOk result (λ link. link ≡ root_in (car_of sync.now.blocks)) }
{
    match at_car::read(alloc, sync.blocks.as_slice()) {
        Ok(car) => Ok(first_root(&car.roots)),
        Err(CarFault::Memory) => Err(Memory),
        Err(_) => Ok(None),
    }
}

fn has_keys_only(items: &[Item]) -> bool
    ensures whole { result ≡ true → KeysOnly items.now }
    ensures not_whole { result ≡ false → KeysOnly items.now → ⊥ }
{
    for item in items {
        if let Item::Hole(..) = item {
            return false;
        }
    }
    true
}

// The map of the whole tree at a root.
fn tree_at(alloc: Global, blocks: &Blocks, root: &Cid) -> Result<Option<WholeMap>, Memory>
    requires { IsNodeLink root.now }
    ensures { IfOk result (IsTreeAt blocks.now root.now) }
{
    let tree = match view(alloc, blocks, root) {
        Ok(tree) => tree,
        Err(ViewFault::Memory) => return Err(Memory),
        Err(_) => return Ok(None),
    };
    let list = tree.list(alloc)?;
    if !has_keys_only(list.as_slice()) {
        return Ok(None);
    }
    Ok(Some(WholeMap::from_list(alloc, &list)?))
}

// The map under a link, of blocks of which the nodes are kept.
fn map_under(alloc: Global, kept: &Kept, link: &Cid) -> Result<Option<WholeMap>, Memory>
    ensures { (blocks : BlockMap) → IsKeptOf is_node_block blocks kept.now
        → IfOk result (IsMapUnder kept.now.roots blocks link.now) }
{
    match first_root(&kept.roots) {
        Some(root) if root == *link => {}
        _ => return Ok(None),
    }
    let Some(block) = &kept.first else {
        return Ok(None);
    };
    let commit = match at_commit::read(alloc, block.as_slice()) {
        Ok(commit) => commit,
        Err(CommitFault::Memory) => return Err(Memory),
        Err(_) => return Ok(None),
    };
    kept.nodes.ghost_linked();
    tree_at(alloc, &kept.nodes, &commit.data_root)
}

// The map of the opened repository, where its first root is the link.
fn map_of<R: Repos>(
    alloc: Global,
    repos: &mut R,
    link: &Cid,
) -> Result<Option<WholeMap>, MirrorFault>
    ensures map { IsTrue R.tells → IfOk result (IsMapOf (R.left repos.old) link.now) }
    ensures same { IsTrue R.tells → (did : List ℕ)
        → R.repository repos.new did ≡ R.repository repos.old did }
    ensures counts { R.faults repos.old ≤ R.faults repos.new }
    ensures failed { IsErrOf result MirrorFault.Repos
        → Rose (R.faults repos.old) (R.faults repos.new) }
    ensures steady { result ≢ Err MirrorFault.Repos → R.faults repos.new ≡ R.faults repos.old }
    ensures good { result ≢ Err MirrorFault.BadMessage }
{
    match scan_repo(alloc, repos) {
        Ok(kept) => Ok(map_under(alloc, &kept, link)?),
        Err(RepoFault::Failed) => Err(MirrorFault::Repos),
        Err(RepoFault::Memory) => Err(MirrorFault::Memory),
        Err(_) => Ok(None),
    }
}

/// What a `#sync` makes of what is held: the map of its account's repository, where that has the commit that is stated.
pub(crate) fn after_sync<R: Repos>(
    alloc: Global,
    sync: &SyncEvent,
    repos: &mut R,
) -> Result<Holding, MirrorFault>
    ensures after { IsTrue R.tells → IfOk result (IsAfterSync (R.repository repos.old) sync.now) }
    ensures same { IsTrue R.tells → (did : List ℕ)
        → R.repository repos.new did ≡ R.repository repos.old did }
    ensures counts { R.faults repos.old ≤ R.faults repos.new }
    ensures failed { IsErrOf result MirrorFault.Repos
        → Rose (R.faults repos.old) (R.faults repos.new) }
    ensures steady { result ≢ Err MirrorFault.Repos → R.faults repos.new ≡ R.faults repos.old }
    ensures good { result ≢ Err MirrorFault.BadMessage }
{
    let Some(link) = stated_link(alloc, sync)? else {
        return Ok(Holding::Waiting);
    };
    match repos.open(sync.did.as_str()) {
        Ok(true) => {}
        Ok(false) => return Ok(Holding::Waiting),
        Err(ReposFault::Failed) => return Err(MirrorFault::Repos),
        Err(ReposFault::Memory) => return Err(MirrorFault::Memory),
    }
    match map_of(alloc, repos, &link)? {
        Some(map) => Ok(Holding::Mapped(Some(sync.rev), map)),
        None => Ok(Holding::Waiting),
    }
}
