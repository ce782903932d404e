//! `#sync` events.

ghost use Rattle.std.specs.Prelude.{◌≡◌, IfOk, IfErr, OnOk, None, Ok};
ghost use Rattle.event_checks.specs.Faults.{IsShown};
ghost use Rattle.event_checks.specs.Lines.{first_of};
ghost use Rattle.event_checks.specs.Opening.{object_lines};
ghost use Rattle.event_checks.specs.Table.{sync_lines};
ghost use Rattle.repo_sync.specs.Sync.{IsFoundIn, IsSynced, IsUnjudged, SyncsExactly};

use crate::found::{Found, found_in};
use at_car::Car;
use at_cid::Octets;
use at_event::{Refusal, SyncEvent};
use at_syntax::Tid;
use event_checks::{MOST_SYNC_BYTES, OpenFault, find_commit, is_stale};
use std::alloc::Global;

/// What the CAR of an event shows of its commit.
fn find_in(alloc: Global, event: &SyncEvent, car: &Car) -> Result<Found, OpenFault>
    ensures shown { OnOk result
        (first_of (object_lines (Ok (car.entry.now.roots, car.entry.now.blocks)) None event.now.did
        event.now.rev) ≡ None) }
    ensures found { IfOk result (IsFoundIn (Ok (car.entry.now.roots, car.entry.now.blocks))) }
    ensures refused { IfErr result
        (IsShown (first_of (object_lines
        (Ok (car.entry.now.roots, car.entry.now.blocks)) None event.now.did event.now.rev))) }
{
    let held = find_commit(alloc, car, None, &event.did, event.rev)?;
    let Ok(block) = Octets::from_slice(alloc, held.block) else {
        return Err(OpenFault::Memory);
    };
    Ok(found_in(held.link, block, held.commit, 0))
}

/// What the blocks of an event show.
fn find(alloc: Global, event: &SyncEvent, last: Option<Tid>) -> Result<Found, OpenFault>
    ensures found { IfOk result (IsSynced event.now last) }
    ensures refused { IfErr result (IsShown (first_of (sync_lines event.now last))) }
{
    if event.blocks.len() > MOST_SYNC_BYTES {
        return Err(OpenFault::Refused(Refusal::BlocksTooLong));
    }
    if is_stale(last, event.rev) {
        return Err(OpenFault::Refused(Refusal::Stale));
    }
    let car = at_car::read(alloc, event.blocks.as_slice())?;
    find_in(alloc, event, &car)
}

/// Checks a `#sync` event by itself, behind the last revision of its account. No record is looked for: `records` is 0.
///
/// It is refused with the first of these that applies: more than [`MOST_SYNC_BYTES`] bytes of blocks; a revision that isn't
/// above `last`; a CAR that doesn't read; a block that isn't its link's; no root; a root whose block is missing; a block that
/// is no commit object; a commit of another account or revision. (Lexicon `com.atproto.sync.subscribeRepos`, `#sync`.)
pub fn check_sync(alloc: Global, event: &SyncEvent, last: Option<Tid>) -> Result<Found, OpenFault>
    ensures found { IfOk result (IsSynced event.now last) }
    ensures refused { IfErr result (IsShown (first_of (sync_lines event.now last))) }
    ensures exact { SyncsExactly event.now last result }
    ensures unjudged { IfErr result IsUnjudged }
{
    find(alloc, event, last)
}
