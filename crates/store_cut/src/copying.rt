//! Copying the rows behind a place of a log into one that is being built.

ghost use Rattle.std.specs.Prelude.{◌≡◌, ◌+◌, ◌++◌, ℕ, List, drop, Err, IsTrue, OnOk};
ghost use Rattle.at_cid.specs.Counts.{CountedPair};
ghost use Rattle.relay_disk.specs.Disk.{Goes, Same};
ghost use Rattle.relay_disk.specs.Moments.{LeavesOnly};
ghost use Rattle.gate_log.specs.Log.{IsOn};
ghost use Rattle.gate_log.specs.Build.{IsBuiltOn, IsClosed};
ghost use Rattle.relay_row.specs.Journal.{IsJournal};
ghost use Rattle.relay_row.specs.declared.row.Row.{Row as TheRow};
ghost use Rattle.relay_core.specs.Entries.{Holds};
ghost use Rattle.relay_store.specs.Journals.{joined};
ghost use Rattle.store_cut.specs.Rereading.{IsOfSome, OfBodiesFrom, OfBodyAt, StillHolds};
ghost use Rattle.store_cut.specs.Rewriting.{CopiedAs, RewriteHasNoRoom, IsOfRewriting};
ghost use Rattle.relay_store.specs.declared.fault.StoreFault.{StoreFault as TheFault};

use crate::rereading::body_at;
use crate::rewriting::{Rewrite, put_rows};
use event_window::Place;
use gate_log::Log;
use relay_disk::Disk;
use relay_store::StoreFault;
use std::alloc::Global;

// Copies the rows of the bodies from a place on.
fn copy_bodies<D: Disk>(
    alloc: Global,
    log: &Log,
    disk: &mut D,
    from: u64,
    room: &mut Vec<u8>,
    rewrite: &mut Rewrite,
    other: &mut D,
) -> Result<(), StoreFault>
    requires log { IsTrue D.tells → IsOn (D.view disk.old) log.now }
    requires build { IsTrue D.tells → IsBuiltOn (D.view other.old) rewrite.old.build }
    ensures copied { OnOk result (CopiedAs D.tells (λ rows.
        OfBodiesFrom D.tells log.now (D.view disk.old) from (λ before after. rows ≡ joined after))
        rewrite.old rewrite.new (D.view other.old) (D.view other.new)) }
    ensures known { OnOk result (IsOfSome rewrite.old.core → IsOfSome rewrite.new.core) }
    ensures full { (e : ℕ) → result ≡ Err (StoreFault.Full e)
        → OfBodiesFrom D.tells log.now (D.view disk.old) from (λ before after.
        RewriteHasNoRoom rewrite.old.build.end rewrite.old.build.most (joined after) e) }
    ensures no_bad_log { (p : ℕ) → result ≡ Err (StoreFault.BadLog p)
        → OfBodiesFrom D.tells log.now (D.view disk.old) from (λ before after.
        (J : List TheRow) → Holds rewrite.old.core J → IsJournal (J ++ joined after) → ⊥) }
    ensures run { IsTrue D.tells → LeavesOnly IsClosed (D.view other.old) (D.view other.new) }
    ensures goes { Goes Same (D.view disk.old) (D.view disk.new) }
    ensures holds { StillHolds D.tells log.now (D.view disk.old) (D.view disk.new) }
    ensures counts { CountedPair (result ≡ Err StoreFault.Disk)
        (D.view disk.old).faults (D.view other.old).faults
        (D.view disk.new).faults (D.view other.new).faults }
    ensures few { (f : TheFault) → result ≡ Err f → IsOfRewriting f }
{
    let mut place = from;
    'bodies: while place < log.end() {
        let (rows, next) = body_at(alloc, log, disk, place, room)?;
        put_rows(rewrite, other, place, rows)?;
        place = next;
    }
    Ok(())
}

/// Copies the rows behind the one at a place.
pub(crate) fn copy_behind<D: Disk>(
    alloc: Global,
    log: &Log,
    disk: &mut D,
    last: Place,
    rewrite: &mut Rewrite,
    other: &mut D,
) -> Result<(), StoreFault>
    requires log { IsTrue D.tells → IsOn (D.view disk.old) log.now }
    requires build { IsTrue D.tells → IsBuiltOn (D.view other.old) rewrite.old.build }
    ensures copied { OnOk result (CopiedAs D.tells (λ rows.
        OfBodyAt D.tells log.now (D.view disk.old) last.place (λ before there after.
        rows ≡ drop (last.index + 1) there ++ joined after))
        rewrite.old rewrite.new (D.view other.old) (D.view other.new)) }
    ensures known { OnOk result (IsOfSome rewrite.old.core → IsOfSome rewrite.new.core) }
    ensures full { (e : ℕ) → result ≡ Err (StoreFault.Full e)
        → OfBodyAt D.tells log.now (D.view disk.old) last.place (λ before there after.
        RewriteHasNoRoom rewrite.old.build.end rewrite.old.build.most
        (drop (last.index + 1) there ++ joined after) e) }
    ensures no_bad_log { (p : ℕ) → result ≡ Err (StoreFault.BadLog p)
        → OfBodyAt D.tells log.now (D.view disk.old) last.place (λ before there after.
        (J : List TheRow) → Holds rewrite.old.core J
        → IsJournal (J ++ (drop (last.index + 1) there ++ joined after)) → ⊥) }
    ensures run { IsTrue D.tells → LeavesOnly IsClosed (D.view other.old) (D.view other.new) }
    ensures goes { Goes Same (D.view disk.old) (D.view disk.new) }
    ensures holds { StillHolds D.tells log.now (D.view disk.old) (D.view disk.new) }
    ensures counts { CountedPair (result ≡ Err StoreFault.Disk)
        (D.view disk.old).faults (D.view other.old).faults
        (D.view disk.new).faults (D.view other.new).faults }
    ensures few { (f : TheFault) → result ≡ Err f → IsOfRewriting f }
{
    let mut room = Vec::new(alloc);
    let (mut rows, next) = body_at(alloc, log, disk, last.place, &mut room)?;
    let taken = (usize::from(last.index) + 1).min(rows.len());
    let Ok(behind) = rows.split_off(taken) else {
        return Err(StoreFault::Memory);
    };
    put_rows(rewrite, other, last.place, behind)?;
    copy_bodies(alloc, log, disk, next, &mut room, rewrite, other)
}
