//! Blocks, sifted as they come.

ghost use Rattle.std.specs.Prelude.{◌≡◌, ◌++◌, ◌∷◌, [], ℕ, List, is_some, OnOk, OnErr, IfOk, if◌then◌else◌, Some, None};
ghost use Rattle.sha2.specs.Sha256.{sha256};
ghost use Rattle.at_cid.specs.Link.{digest_of};
ghost use Rattle.at_car.specs.Blocks.{BlockMap, kept};
ghost use Rattle.at_car.specs.Sifting.{HoldsSifted, is_root};

use crate::log::ScanLog;
use crate::sieve::Sieve;
use at_cid::{Cid, Memory, Octets};
use std::alloc::Global;

/// What is held of the blocks so far: the first root's, and of each its link, with the block where a sieve keeps it.
#[derive(Drop)]
pub(crate) struct Sifted {
    pub first: Option<Octets>,
    pub log: ScanLog,
}

/// A copy of the block where its link is the root and no block was under it.
fn root_block(
    alloc: Global,
    root: &Option<Cid>,
    first: &Option<Octets>,
    link: &Cid,
    block: &[u8],
) -> Result<Option<Octets>, Memory>
    ensures { IfOk result (λ found. found ≡ (if is_some first.now then None
        else (if is_root root.now link.now then Some block.now else None))) }
{
    if first.is_some() {
        return Ok(None);
    }
    match root {
        Some(root) if root == link => Ok(Some(Octets::from_slice(alloc, block)?)),
        _ => Ok(None),
    }
}

/// Adds a block, or its link alone.
fn put(log: &mut ScanLog, picked: bool, link: Cid, block: &[u8]) -> Result<(), Memory>
    requires { digest_of link ≡ sha256 block.now }
    ensures ok { OnOk result
        (log.new ≡ log.old ++ (link, (if picked then Some block.now else None)) ∷ []) }
    ensures err { OnErr result (log.new ≡ log.old) }
{
    if picked {
        log.keep(link, block)
    } else {
        log.let_go(link)
    }
}

/// Takes a block under its link. A link that is there keeps its block.
pub(crate) fn sift<S: Sieve>(
    alloc: Global,
    sieve: &S,
    root: &Option<Cid>,
    sifted: &mut Sifted,
    link: Cid,
    block: &[u8],
) -> Result<(), Memory>
    requires { digest_of link ≡ sha256 block.now }
    ensures ok { OnOk result ((blocks : BlockMap) → HoldsSifted S.picks root.now blocks sifted.old
        → HoldsSifted S.picks root.now (kept blocks link block.now) sifted.new) }
    ensures err { OnErr result (sifted.new ≡ sifted.old) }
{
    let picked = sieve.keeps(block)?;
    let first = root_block(alloc, root, &sifted.first, &link, block)?;
    put(&mut sifted.log, picked, link, block)?;
    if first.is_some() {
        sifted.first = first;
    }
    Ok(())
}
