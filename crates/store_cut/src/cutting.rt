//! Cutting a store's journal.

ghost use Rattle.std.specs.Prelude.{◌≡◌, ◌≢◌, ◌≤◌, ◌<◌, ◌+◌, ◌⊎◌, [], ℕ, List, length, true, false, IsTrue, IfOk, OnOk, OnErr};
ghost use Rattle.at_cid.specs.Counts.{CountedPair, Rose};
ghost use Rattle.at_event.specs.declared.refusal.Refusal.{Refusal as TheRefusal};
ghost use Rattle.event_window.specs.Held.{oldest_of};
ghost use Rattle.event_window.specs.Window.{IsLastUpto};
ghost use Rattle.relay_disk.specs.Disk.{Goes, Same};
ghost use Rattle.relay_disk.specs.Moments.{LeavesOnly, PairLeavesOnly, TimeGoesOn};
ghost use Rattle.gate_log.specs.Image.{front, generation};
ghost use Rattle.gate_log.specs.Log.{HoldsBodies as HasBodies, IsOn};
ghost use Rattle.gate_log.specs.Pick.{other_side};
ghost use Rattle.gate_log.specs.Build.{HasBuilt, IsBuiltOn, IsClosed, IsFormerOrIdle};
ghost use Rattle.gate_log.specs.Beside.{LeavesLive};
ghost use Rattle.at_cid.specs.declared.limits.TheConstants.{NUMBERS};
ghost use Rattle.relay_row.specs.Folds.{last_seq};
ghost use Rattle.relay_row.specs.declared.row.Row.{Row as TheRow};
ghost use Rattle.relay_core.specs.Entries.{Holds};
ghost use Rattle.cut_law.specs.Cut.{MayCut, cut};
ghost use Rattle.store_cut.specs.Cutting.{IsEitherBeside, IsUncut};
ghost use Rattle.store_cut.specs.Anew.{CutHasNoRoom, HasKept, IsAnew, LeavesEither, OfCut, next_format};
ghost use Rattle.relay_store.specs.Journals.{bytes_of};
ghost use Rattle.store_cut.specs.Rereading.{IsOfSomeCut, StillHolds};
ghost use Rattle.store_cut.specs.Rewriting.{CopiedAs, RewriteHasNoRoom, IsOfRewriting, singles};
ghost use Rattle.relay_store.specs.Shown.{held_by};
ghost use Rattle.relay_store.specs.Store.{IsKept, Keeps, seen_in};
ghost use Rattle.relay_store.specs.declared.fault.StoreFault.{StoreFault as TheFault};

use crate::carrying::carry;
use crate::comparing::have_kept;
use crate::copying::copy_behind;
use crate::rereading::fold_upto;
use crate::rewriting::Rewrite;
use at_cid::{NUMBERS, Octets};
use at_event::Refusal;
use event_window::{Place, Window};
use gate_log::{Build, Format, Log, Side};
use relay_core::Core;
use relay_disk::Disk;
use relay_store::{Store, StoreFault};
use std::alloc::Global;

/// What is answered to cutting a journal.
#[derive(Clone, Copy, Debug, PartialEq, Eq)]
pub enum CutDone {
    /// It was cut: the oldest number that it holds, or where it holds none the one behind the last; and the last number.
    Cut(u64, u64),
    /// It is as it was.
    Refused(Refusal),
}

// A journal that was written anew: its log, and what is known of it.
#[derive(Drop)]
struct Anew {
    log: Log,
    core: Core,
    window: Window,
}

// Begins a log of the next generation on the other disk.
fn begin<D: Disk>(alloc: Global, log: &Log, other: &mut D) -> Result<Rewrite, StoreFault>
    requires { generation log.now.format + 1 < NUMBERS }
    ensures build { IfOk result (λ rewrite. rewrite.build ≡ record {
      format = Format.Two (generation log.now.format + 1);
      end = length (front (Format.Two (generation log.now.format + 1)));
      most = log.now.most;
      waiting = [];
    }) }
    ensures begun { IfOk result (λ rewrite. IsTrue D.tells
        → HasBuilt [] rewrite.build (D.view other.new)) }
    ensures core { IfOk result (λ rewrite. Holds rewrite.core []) }
    ensures window { IfOk result (λ rewrite. rewrite.window.places ≡ []) }
    ensures moments { IsTrue D.tells → LeavesOnly (IsFormerOrIdle (D.view other.old))
        (D.view other.old) (D.view other.new) }
    ensures disk { result ≡ Err StoreFault.Disk
        → Rose (D.view other.old).faults (D.view other.new).faults }
    ensures steady { OnOk result ((D.view other.new).faults ≡ (D.view other.old).faults) }
    ensures no_fault { OnErr result (result ≢ Err StoreFault.Disk
        → (D.view other.new).faults ≡ (D.view other.old).faults) }
    ensures counts { (D.view other.old).faults ≤ (D.view other.new).faults }
    ensures memory { result ≡ Err StoreFault.Memory → other.new ≡ other.old }
    ensures few { (f : TheFault) → result ≡ Err f → (f ≡ StoreFault.Disk)
        ⊎ (f ≡ StoreFault.Memory) }
{
    let build = match Build::begin(alloc, other, log.generation() + 1, log.most()) {
        Ok(build) => build,
        Err(fault) => return Err(StoreFault::from(fault)),
    };
    Ok(Rewrite {
        build,
        core: Core::new(alloc),
        window: Window::new(alloc),
        body: Octets::new(alloc),
    })
}

fn other_side(side: Side) -> Side
    ensures { result ≡ other_side side }
{
    match side {
        Side::One => Side::Two,
        Side::Two => Side::One,
    }
}

// Adds the rows of the journal that is cut at the last place of the numbers up to one. The disk that the store is on is only read.
fn fill<D: Disk>(
    store: &Store,
    alloc: Global,
    disk: &mut D,
    other: &mut D,
    last: Place,
    rewrite: &mut Rewrite,
) -> Result<(), StoreFault>
    requires on { IsTrue D.tells → IsOn (D.view disk.old) store.now.log }
    requires build { IsTrue D.tells → IsBuiltOn (D.view other.old) rewrite.old.build }
    ensures copied { OnOk result (CopiedAs D.tells (λ rows.
        OfCut D.tells (seen_in store.now) (D.view disk.old) last (λ J c. rows ≡ cut J c))
        rewrite.old rewrite.new (D.view other.old) (D.view other.new)) }
    ensures known { OnOk result (Holds rewrite.old.core [] → IsOfSomeCut rewrite.new.core) }
    ensures full { (e : ℕ) → result ≡ Err (StoreFault.Full e)
        → OfCut D.tells (seen_in store.now) (D.view disk.old) last (λ J c.
        RewriteHasNoRoom rewrite.old.build.end rewrite.old.build.most (cut J c) e) }
    ensures no_bad_log { (p : ℕ) → result ≡ Err (StoreFault.BadLog p)
        → OfCut D.tells (seen_in store.now) (D.view disk.old) last (λ J c. c ≤ last_seq J
        → Holds rewrite.old.core [] → ⊥) }
    ensures run { IsTrue D.tells → LeavesOnly IsClosed (D.view other.old) (D.view other.new) }
    ensures goes { Goes Same (D.view disk.old) (D.view disk.new) }
    ensures holds { StillHolds D.tells store.now.log (D.view disk.old) (D.view disk.new) }
    ensures counts { CountedPair (result ≡ Err StoreFault.Disk)
        (D.view disk.old).faults (D.view other.old).faults
        (D.view disk.new).faults (D.view other.new).faults }
    ensures few { (f : TheFault) → result ≡ Err f → IsOfRewriting f }
{
    let front = fold_upto(alloc, &store.log, disk, last)?;
    carry(alloc, &front, rewrite, other)?;
    copy_behind(alloc, &store.log, disk, last, rewrite, other)
}

// Whether what was written anew has the last number that was kept, and of the events' those that are above a number.
fn has_kept(store: &Store, seq: u64, rewrite: &Rewrite) -> bool
    ensures kept { result ≡ true
        → HasKept seq (seen_in store.now) rewrite.now.core rewrite.now.window.places }
    ensures lost { result ≡ false
        → HasKept seq (seen_in store.now) rewrite.now.core rewrite.now.window.places → ⊥ }
{
    rewrite.core.last_seq() == store.core.last_seq()
        && have_kept(rewrite.window.as_slice(), seq, store.window.as_slice())
}

// Writes that journal anew on the other disk, and compares its numbers with those that were kept above one before its log is opened.
fn write_anew<D: Disk>(
    store: &Store,
    alloc: Global,
    disk: &mut D,
    other: &mut D,
    last: Place,
    seq: u64,
) -> Result<Anew, StoreFault>
    requires on { IsTrue D.tells → IsOn (D.view disk.old) store.now.log }
    requires generation { generation store.now.log.format + 1 < NUMBERS }
    ensures anew { IfOk result (λ anew. IsAnew D.tells (seen_in store.now) (D.view disk.old) last
        seq anew (D.view other.new)) }
    ensures leaves { LeavesEither D.tells (seen_in store.now) last
        (D.view disk.old) (D.view disk.new) (D.view other.old) (D.view other.new) }
    ensures live { OnOk result (IsTrue D.tells → (side : Side)
        → LeavesLive (other_side side) (D.view other.new) (D.view disk.new)) }
    ensures as_before { OnErr result (result ≢ Err StoreFault.Disk → IsTrue D.tells
        → (side : Side) → LeavesLive side (D.view disk.old) (D.view other.old)
        → LeavesLive side (D.view disk.new) (D.view other.new)) }
    ensures full { (e : ℕ) → result ≡ Err (StoreFault.Full e)
        → OfCut D.tells (seen_in store.now) (D.view disk.old) last (λ J c.
        CutHasNoRoom (seen_in store.now) J c e) }
    ensures no_bad_log { (p : ℕ) → result ≡ Err (StoreFault.BadLog p) → IsTrue D.tells
        → (J : List TheRow) → Keeps J (seen_in store.now) (D.view disk.old)
        → IsLastUpto seq last store.now.window.places → seq ≤ last_seq J → ⊥ }
    ensures counts { CountedPair (result ≡ Err StoreFault.Disk)
        (D.view disk.old).faults (D.view other.old).faults
        (D.view disk.new).faults (D.view other.new).faults }
    ensures few { (f : TheFault) → result ≡ Err f → IsOfRewriting f }
{
    let mut rewrite = begin(alloc, &store.log, other)?;
    fill(store, alloc, disk, other, last, &mut rewrite)?;
    if !has_kept(store, seq, &rewrite) {
        return Err(StoreFault::BadLog(last.place));
    }
    let Rewrite {
        build,
        core,
        window,
        ..
    } = rewrite;
    match build.finish(other) {
        Ok(log) => Ok(Anew { log, core, window }),
        Err(_) => Err(StoreFault::Disk),
    }
}

/// Takes the events up to a number out of the journal. What is left is written anew on the other disk of the pair, each row as a body
/// of its own, and the store is on that disk afterwards: `other` is then the one to be handed to each call. While it is written, the
/// log that is there stays: a crash leaves the journal as it was, or as it is cut. It takes memory for the state behind the events
/// that go, for the new one, and up to some 262,144 bytes for rows that wait to be written; and it reads the disk once, but for
/// the body of the last of these events.
///
/// It is refused with `PastEnd`, where the number is above the last one; else with `NothingToCut`, where no event has a number up to
/// it; else with `LastCut`, where the log has the last generation. Nothing is touched then. After every fault but `Disk` the store is
/// as it was, and it may be cut again. `Full` comes where a row has no room in the new log, and carries where it would end there.
pub fn cut<D: Disk>(
    store: &mut Store,
    alloc: Global,
    disk: &mut D,
    other: &mut D,
    seq: u64,
) -> Result<CutDone, StoreFault>
    requires open { IsTrue store.old.log.is_open }
    requires on { IsTrue D.tells → IsKept (seen_in store.old) (D.view disk.old) }
    requires live { IsTrue D.tells
        → LeavesLive store.old.side (D.view disk.old) (D.view other.old) }

    // Nothing is touched where it is refused, and there is the cause, and none that comes before.
    ensures untouched { (why : TheRefusal) → result ≡ Ok (CutDone.Refused why)
        → (store.new ≡ store.old) × (disk.new ≡ disk.old) × (other.new ≡ other.old) }
    ensures refused { (why : TheRefusal) → result ≡ Ok (CutDone.Refused why) → IsTrue D.tells
        → (J : List TheRow)
        → Keeps J (seen_in store.old) (D.view disk.old) → IsUncut J store.old.log.format seq why }

    // Else there is none, and the store has the cut journal, on the other disk. Its log is of the next generation, each row is a body
    // of its own, and all have room.
    ensures may { ((why : TheRefusal) → result ≢ Ok (CutDone.Refused why)) → IsTrue D.tells
        → (J : List TheRow)
        → Keeps J (seen_in store.old) (D.view disk.old) → MayCut J seq
        × (generation store.old.log.format + 1 < NUMBERS) }
    ensures keeps { (oldest last : ℕ) → result ≡ Ok (CutDone.Cut oldest last) → IsTrue D.tells
        → (J : List TheRow)
        → Keeps J (seen_in store.old) (D.view disk.old)
        → Keeps (cut J seq) (seen_in store.new) (D.view other.new) }
    ensures bodies { (oldest last : ℕ) → result ≡ Ok (CutDone.Cut oldest last) → IsTrue D.tells
        → (J : List TheRow)
        → Keeps J (seen_in store.old) (D.view disk.old)
        → HasBodies (bytes_of (singles (cut J seq))) store.new.log (D.view other.new) }
    ensures told { (oldest last : ℕ) → result ≡ Ok (CutDone.Cut oldest last) → IsTrue D.tells
        → (J : List TheRow)
        → Keeps J (seen_in store.old) (D.view disk.old)
        → (oldest ≡ oldest_of (held_by (cut J seq))) × (last ≡ last_seq (cut J seq)) }
    // Of any disk: what was read again keeps the order of numbers, so that what was written is a journal.
    ensures known { (oldest last : ℕ) → result ≡ Ok (CutDone.Cut oldest last)
        → IsOfSomeCut store.new.core }
    // Of any disk: the events that are left have the numbers that were kept of them.
    ensures numbers { (oldest last : ℕ) → result ≡ Ok (CutDone.Cut oldest last)
        → HasKept seq (seen_in store.old) store.new.core store.new.window.places }
    ensures anew { (oldest last : ℕ) → result ≡ Ok (CutDone.Cut oldest last)
        → (store.new.side ≡ other_side store.old.side)
        × (store.new.log.format ≡ next_format (seen_in store.old))
        × (store.new.log.most ≡ store.old.log.most) }
    ensures room { (oldest last : ℕ) → result ≡ Ok (CutDone.Cut oldest last) → IsTrue D.tells
        → store.new.log.end < store.new.log.most }
    ensures live { (oldest last : ℕ) → result ≡ Ok (CutDone.Cut oldest last) → IsTrue D.tells
        → LeavesLive store.new.side (D.view other.new) (D.view disk.new) }

    // Whatever moments of the call a crash strikes the two disks at, it leaves an image of the journal or of the cut one.
    ensures moments { IsTrue D.tells → (J : List TheRow)
        → Keeps J (seen_in store.old) (D.view disk.old)
        → PairLeavesOnly (IsEitherBeside store.old.side J (cut J seq)) (D.view disk.old)
        (D.view disk.new) (D.view other.old) (D.view other.new) }
    ensures time { IsTrue D.tells → TimeGoesOn (D.view other.old) (D.view other.new) }

    // After every fault but the disk's the store is as before, on its disk.
    ensures as_before { OnErr result (result ≢ Err StoreFault.Disk → (store.new ≡ store.old)
        × (IsTrue D.tells → LeavesLive store.old.side (D.view disk.new) (D.view other.new))) }
    ensures kept { IsTrue D.tells → (J : List TheRow)
        → Keeps J (seen_in store.old) (D.view disk.old)
        → Keeps J (seen_in store.old) (D.view disk.new) }
    ensures goes { Goes Same (D.view disk.old) (D.view disk.new) }

    ensures open { result ≢ Err StoreFault.Disk → IsTrue store.new.log.is_open }
    ensures closed { result ≡ Err StoreFault.Disk → store.new.log.is_open ≡ false }
    ensures disk { result ≡ Err StoreFault.Disk
        → Rose (D.view disk.old).faults (D.view disk.new).faults
        ⊎ Rose (D.view other.old).faults (D.view other.new).faults }
    ensures steady { result ≢ Err StoreFault.Disk
        → ((D.view disk.new).faults ≡ (D.view disk.old).faults)
        × ((D.view other.new).faults ≡ (D.view other.old).faults) }
    ensures counts { (D.view other.old).faults ≤ (D.view other.new).faults }
    ensures full { (e : ℕ) → result ≡ Err (StoreFault.Full e) → IsTrue D.tells
        → (J : List TheRow) → Keeps J (seen_in store.old) (D.view disk.old)
        → CutHasNoRoom (seen_in store.old) J seq e }
    ensures no_bad_log { (p : ℕ) → result ≡ Err (StoreFault.BadLog p) → IsTrue D.tells → ⊥ }
    ensures few { (f : TheFault) → result ≡ Err f → IsOfRewriting f }
{
    if seq > store.core.last_seq() {
        return Ok(CutDone::Refused(Refusal::PastEnd));
    }
    let Some(last) = store.window.last_upto(seq) else {
        return Ok(CutDone::Refused(Refusal::NothingToCut));
    };
    if store.log.generation() >= NUMBERS - 1 {
        return Ok(CutDone::Refused(Refusal::LastCut));
    }
    match write_anew(store, alloc, disk, other, last, seq) {
        Ok(anew) => {
            store.log = anew.log;
            store.core = anew.core;
            store.window = anew.window;
            store.side = other_side(store.side);
            Ok(CutDone::Cut(store.oldest(), store.core.last_seq()))
        }
        Err(StoreFault::Disk) => {
            store.log.close();
            Err(StoreFault::Disk)
        }
        Err(fault) => Err(fault),
    }
}
