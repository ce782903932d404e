//! The commit object under the first root of the CAR in an event's blocks.

ghost use Rattle.std.specs.Prelude.{◌≡◌, ℕ, List, IfOk, IfErr, OnOk, Some, None, Ok, Err, true};
ghost use Rattle.at_car.specs.Standing.{root_of};
ghost use Rattle.event_checks.specs.Faults.{IsShown};
ghost use Rattle.event_checks.specs.Lines.{first_of};
ghost use Rattle.event_checks.specs.Opening.{IsFound, block_in, data_in, is_stated, object_in, object_lines};

use crate::fault::OpenFault;
use at_car::{Car, first_root};
use at_cid::{Cid, Words};
use at_commit::Commit;
use at_event::Refusal;
use at_syntax::Tid;
use std::alloc::Global;

/// A commit object, with its link and the block that it is.
#[derive(Drop)]
pub struct CommitBlock<'a> {
    /// The first root of the CAR.
    pub link: Cid,
    /// The block under it.
    pub block: &'a [u8],
    /// The commit object.
    pub commit: Commit,
}

fn refused<T>(refusal: Refusal) -> Result<T, OpenFault>
    ensures { result ≡ Err (OpenFault.Refused refusal) }
{
    Err(OpenFault::Refused(refusal))
}

/// Whether a root is the link that is stated, where one is.
fn is_stated(stated: Option<Cid>, root: Cid) -> bool
    ensures { result ≡ is_stated stated root }
{
    match stated {
        Some(link) => root == link,
        None => true,
    }
}

/// The first root of a CAR, and the block under it.
fn find_block(car: &Car, stated: Option<Cid>) -> Result<(Cid, &[u8]), OpenFault>
    ensures rooted { IfOk result (λ x. (root_of car.now.roots ≡ Some x.0)
        × (is_stated stated x.0 ≡ true)) }
    ensures found { IfOk result (λ x. block_in (Ok (car.now.roots, car.now.blocks))
        ≡ Some x.1.now) }
    ensures refused { (did : List ℕ) (rev : ℕ)
        → IfErr result
        (IsShown (first_of (object_lines (Ok (car.now.roots, car.now.blocks)) stated did rev))) }
{
    let Some(link) = first_root(&car.roots) else {
        return refused(Refusal::WrongRoot);
    };
    if !is_stated(stated, link) {
        return refused(Refusal::WrongRoot);
    }
    match car.blocks.get(&link) {
        Some(block) => Ok((link, block)),
        None => refused(Refusal::NoCommit),
    }
}

/// The commit object under the first root of a CAR, which an event states to be of a DID and of a revision, and, where it
/// is a `#commit`, to have a link.
///
/// It is refused with the first of these that applies: `WrongRoot`, where there is no first root or it isn't the link;
/// `NoCommit`, where its block is missing; `BadCommit`, where that is no commit object; `OtherCommit`, where that is of
/// another account or revision.
pub fn find_commit<'a>(
    alloc: Global,
    car: &'a Car,
    stated: Option<Cid>,
    did: &Words,
    rev: Tid,
) -> Result<CommitBlock<'a>, OpenFault>
    ensures shown { OnOk result
        (first_of (object_lines (Ok (car.entry.now.roots, car.entry.now.blocks)) stated did.now rev)
        ≡ None) }
    ensures found { IfOk result (λ found.
        IsFound (Ok (car.entry.now.roots, car.entry.now.blocks)) found.link found.block.now
        found.commit) }
    ensures refused { IfErr result
        (IsShown (first_of (object_lines
        (Ok (car.entry.now.roots, car.entry.now.blocks)) stated did.now rev))) }
{
    let (link, block) = match find_block(car, stated) {
        Ok(found) => found,
        Err(fault) => return Err(fault),
    };
    let commit = at_commit::read(alloc, block)?;
    if commit.did != *did || commit.rev != rev {
        return refused(Refusal::OtherCommit);
    }
    Ok(CommitBlock {
        link,
        block,
        commit,
    })
}

/// The `data` of that commit object. It is refused as [`find_commit`] refuses it; what a signature covers isn't encoded.
pub fn find_data(
    alloc: Global,
    car: &Car,
    stated: Option<Cid>,
    did: &Words,
    rev: Tid,
) -> Result<Cid, OpenFault>
    ensures shown { OnOk result
        (first_of (object_lines (Ok (car.now.roots, car.now.blocks)) stated did.now rev) ≡ None) }
    ensures found { IfOk result (λ root. data_in (object_in (Ok (car.now.roots, car.now.blocks)))
        ≡ Some root) }
    ensures refused { IfErr result (IsShown
        (first_of (object_lines (Ok (car.now.roots, car.now.blocks)) stated did.now rev))) }
{
    let (_, block) = match find_block(car, stated) {
        Ok(found) => found,
        Err(fault) => return Err(fault),
    };
    match at_commit::read_data(alloc, block, did, rev)? {
        Some(root) => Ok(root),
        None => refused(Refusal::OtherCommit),
    }
}
