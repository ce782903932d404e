//! A commit event opened: what its message shows by itself.

ghost use Rattle.std.specs.Prelude.{◌≡◌, IfOk, IfErr, OnOk, None, Err, false};
ghost use Rattle.commit_check.specs.Opening.{IsContent, IsOpened};
ghost use Rattle.commit_check.specs.Refusing.{IsShown, IsUnjudged};
ghost use Rattle.event_checks.specs.Lines.{first_of};
ghost use Rattle.event_checks.specs.Table.{block_lines, field_lines, is_stale, open_lines};

use crate::content::Content;
use crate::fault::CheckFault;
use crate::fields::field_refusal;
use crate::opened::Opened;
use at_event::{CommitEvent, Head, Refusal};
use at_syntax::Tid;
use event_checks::{find_commit, find_data, is_stale};
use std::alloc::Global;

fn refused<T>(refusal: Refusal) -> Result<T, CheckFault>
    ensures { result ≡ Err (CheckFault.Refused refusal) }
{
    Err(CheckFault::Refused(refusal))
}

/// Refuses what the fields of an event show, and then what is stale.
#[tactic(auto, using(crate::proofs::Unjudged::by_lines))]
fn test_fields(alloc: Global, event: &CommitEvent, last: Option<Tid>) -> Result<(), CheckFault>
    ensures passed { OnOk result ((first_of (field_lines event.now) ≡ None)
        × (is_stale last event.now.rev ≡ false)) }
    ensures refused { IfErr result (IsShown (first_of (open_lines event.now last))) }
    ensures unjudged { IfErr result IsUnjudged }
{
    if let Some(refusal) = field_refusal(alloc, event)? {
        return refused(refusal);
    }
    if is_stale(last, event.rev) {
        return refused(Refusal::Stale);
    }
    Ok(())
}

/// Opens a commit event: its blocks are read, and the commit object under their first root.
///
/// It is refused with the first of these that applies: `tooBig` is true; more than
/// [`MOST_COMMIT_BYTES`](event_checks::MOST_COMMIT_BYTES) bytes of blocks; more than
/// [`MOST_OPS`](event_checks::MOST_OPS) operations; a path that is none; a path that stands twice; an operation whose links
/// don't fit its action; a revision that isn't above `last`; a CAR that doesn't read; a block that isn't its link's; a first
/// root that isn't the commit; a root whose block is missing; a block that is no commit object; a commit of another account
/// or revision.
#[tactic(auto, using(crate::proofs::Unjudged::by_lines))]
pub fn open_commit(
    alloc: Global,
    event: &CommitEvent,
    last: Option<Tid>,
) -> Result<Opened, CheckFault>
    ensures shown { OnOk result (first_of (open_lines event.now last) ≡ None) }
    ensures opened { IfOk result (λ opened. IsOpened event.now opened) }
    ensures refused { IfErr result (IsShown (first_of (open_lines event.now last))) }
    ensures unjudged { IfErr result IsUnjudged }
{
    test_fields(alloc, event, last)?;
    let car = at_car::read(alloc, event.blocks.as_slice())?;
    let found = find_commit(alloc, &car, Some(event.commit), &event.repo, event.rev)?;
    let commit = found.commit;
    let head = Head {
        rev: commit.rev,
        data_root: commit.data_root,
        commit: event.commit,
    };
    let digest = commit.digest();
    Ok(Opened {
        head,
        digest,
        sig: commit.sig,
        car,
    })
}

/// What the blocks hold, where nothing is verified of a signature: what one would cover is neither encoded nor hashed.
fn block_content(alloc: Global, event: &CommitEvent) -> Result<Content, CheckFault>
    ensures shown { OnOk result (first_of (block_lines event.now) ≡ None) }
    ensures content { IfOk result (IsContent event.now) }
    ensures refused { IfErr result (IsShown (first_of (block_lines event.now))) }
{
    let blocks = event.blocks.as_slice();
    let car = at_car::read(alloc, blocks)?;
    let data_root = find_data(alloc, &car, Some(event.commit), &event.repo, event.rev)?;
    Ok(Content { car, data_root })
}

/// Reads what a check by itself wants of a commit event. It is refused as [`open_commit`] refuses it, none being stale.
pub(crate) fn commit_content(alloc: Global, event: &CommitEvent) -> Result<Content, CheckFault>
    ensures shown { OnOk result (first_of (open_lines event.now None) ≡ None) }
    ensures content { IfOk result (IsContent event.now) }
    ensures refused { IfErr result (IsShown (first_of (open_lines event.now None))) }
{
    test_fields(alloc, event, None)?;
    block_content(alloc, event)
}
