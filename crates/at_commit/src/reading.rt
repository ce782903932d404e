//! The commit object that a block is.

ghost use Rattle.std.specs.Prelude.{◌≡◌, ◌≢◌, ◌↔◌, ◌<◌, ◌≤◌, length, Ok, Err, Some, IfOk, IfErr, IfSome, IsTrue};
ghost use Rattle.at_cid.specs.Link.{IsNodeLink};
ghost use Rattle.at_cid.specs.Memory.{Gives};
ghost use Rattle.at_cbor.specs.Item.{Item, fields_of};
ghost use Rattle.at_cbor.specs.declared.decoding.TheConstants.{DEPTH};
ghost use Rattle.at_cbor.specs.Encoding.{Fits, encoding};
ghost use Rattle.at_syntax.specs.Did.{is_did};
ghost use Rattle.at_commit.specs.Commit.{commit_at, commit_in, commit_of, commit_with, data_of, fault_of, IsCommitIn, ReadsAs};
ghost use Rattle.at_commit.specs.Parts.{seen_object};

use crate::commit::Commit;
use crate::fault::CommitFault;
use crate::fields::{Parts, parts_of};
use crate::signing::unsigned;
use at_cbor::{Fields, Value, decode_whole};
use at_cid::{Cid, Words};
use at_syntax::Tid;
use std::alloc::Global;

/// How many bytes the block of a commit object has at most (own limit).
pub const LONGEST_BLOCK: usize = 8_192;

/// The version of commit objects that is read.
const VERSION: i64 = 3;

/// What the fields of a map say, where they are those of a commit object of the version that is read.
#[tactic(auto, unfolding(crate::specs::Commit::commit_in))]
fn read_parts(fields: &Fields) -> Result<Parts<'_>, CommitFault>
    ensures told { IfOk result (λ parts. commit_in (fields_of fields.entry.now)
        ≡ Ok (commit_with (fields_of fields.entry.now) (seen_object parts))) }
    ensures refused { IfErr result (λ fault. commit_in (fields_of fields.entry.now) ≡ Err fault) }
    ensures short { result ≢ Err CommitFault.TooLong }
{
    let Some(parts) = parts_of(fields) else {
        return Err(CommitFault::Form);
    };
    if parts.version != VERSION {
        return Err(CommitFault::Version);
    }
    Ok(parts)
}

/// The commit that the fields of a map are.
fn read_commit(alloc: Global, fields: &Fields) -> Result<Commit, CommitFault>
    ensures commit { ReadsAs result (commit_in (fields_of fields.now)) }
    ensures short { result ≢ Err CommitFault.TooLong }
{
    let parts = match read_parts(fields) {
        Ok(parts) => parts,
        Err(fault) => return Err(fault),
    };
    Ok(Commit {
        did: parts.did.try_clone()?,
        rev: parts.rev,
        data_root: parts.data_root,
        sig: parts.sig.try_clone()?,
        unsigned: unsigned(alloc, fields)?,
    })
}

/// The commit object that the block is: a map in DAG-CBOR that fills the block, with `did`, a
/// DID; `version`, 3; `data`, a link of kind Node; `rev`, a TID; `prev`, a link, null or absent;
/// and `sig`, bytes. Other fields are accepted. Repository specification, commit objects.
///
/// `TooLong` where the block has more than 8,192 bytes; else `Form` where it isn't of this form,
/// whatever its version; else `Version` where that isn't 3. `Memory` may stand in place of each
/// answer but `TooLong`.
pub fn read(alloc: Global, block: &[u8]) -> Result<Commit, CommitFault>
    ensures commit { ReadsAs result (commit_of block.now) }
    ensures too_long { (result ≡ Err CommitFault.TooLong) ↔ (LONGEST_BLOCK < length block.now) }
    // What is read is encoded so, and what is encoded so is read.
    ensures whole { IfOk result (IsCommitIn block.now) }
    ensures only { (i : Item) → Fits i DEPTH → block.now ≡ encoding i
        → length block.now ≤ LONGEST_BLOCK → ReadsAs result (commit_at (Some i)) }
    ensures data { IfOk result (λ commit. IsNodeLink commit.data_root) }
    ensures did { IfOk result (λ commit. IsTrue (is_did commit.did)) }
{
    read_block(alloc, block)
}

/// The fields of the map that the block is.
#[tactic(auto, unfolding(crate::specs::Commit::commit_of))]
fn read_fields(alloc: Global, block: &[u8]) -> Result<Fields, CommitFault>
    ensures told { IfOk result (λ fields. commit_of block.now ≡ commit_in (fields_of fields)) }
    ensures refused { IfErr result
        (λ fault. IfSome (fault_of fault) (λ f. commit_of block.now ≡ Err f)) }
    ensures too_long { (result ≡ Err CommitFault.TooLong) ↔ (LONGEST_BLOCK < length block.now) }
{
    if block.len() > LONGEST_BLOCK {
        return Err(CommitFault::TooLong);
    }
    match decode_whole(alloc, block)? {
        Some(Value::Map(fields)) => Ok(fields),
        _ => Err(CommitFault::Form),
    }
}

fn read_block(alloc: Global, block: &[u8]) -> Result<Commit, CommitFault>
    ensures commit { ReadsAs result (commit_of block.now) }
    ensures too_long { (result ≡ Err CommitFault.TooLong) ↔ (LONGEST_BLOCK < length block.now) }
{
    let fields = read_fields(alloc, block)?;
    read_commit(alloc, &fields)
}

/// The `data` of the commit object that the block is, where that is of this account and revision, and else nothing. It is
/// what [`read`] gives, and the faults are those of [`read`], but nothing else of the object is kept, and what its signature
/// covers isn't encoded.
pub fn read_data(
    alloc: Global,
    block: &[u8],
    did: &Words,
    rev: Tid,
) -> Result<Option<Cid>, CommitFault>
    ensures { Gives (λ root. root) fault_of result (data_of did.now rev (commit_of block.now)) }
{
    let fields = read_fields(alloc, block)?;
    let parts = match read_parts(&fields) {
        Ok(parts) => parts,
        Err(fault) => return Err(fault),
    };
    if *parts.did == *did && parts.rev == rev {
        Ok(Some(parts.data_root))
    } else {
        Ok(None)
    }
}
