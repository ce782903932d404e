//! Taking a row into what is known and into the body under way.

ghost use Rattle.std.specs.Prelude.{◌≡◌, ◌≤◌, ◌<◌, ◌+◌, ◌++◌, ◌∷◌, ◌⊎◌, [], ℕ, List, length, drop, IfErr, OnOk, OnErr};
ghost use Rattle.gate_log.specs.declared.pending_bodies.TheConstants.{AHEAD};
ghost use Rattle.gate_log.specs.declared.limits.TheConstants.{AROUND_BODY, BODY_LENGTHS};
ghost use Rattle.relay_row.specs.declared.limits.TheConstants.{MOST_ROWS};
ghost use Rattle.relay_row.specs.declared.row.Row.{Row as TheRow};
ghost use Rattle.relay_core.specs.Entries.{Holds};
ghost use Rattle.relay_store.specs.PendingBodies.{Fits, FitsWith, HasRows, IsAdded, IsFull, IsFullWith, IsApplied, IsUnchanged, behind_pending, cut_to, length_with};
ghost use Rattle.relay_store.specs.Places.{place_of};
ghost use Rattle.relay_store.specs.declared.fault.StoreFault.{StoreFault as TheFault};

use event_window::Window;
use gate_log::{AHEAD, AROUND_BODY, BEFORE_BODY, BODY_LENGTHS, Log};
use relay_core::Core;
use relay_row::{NewRow, Row};
use relay_store::{Pending, StoreFault, learn_row, list_front_len};
use row_codec::{write_new_row, write_row};
use std::alloc::Global;

// Where the row that stands in a pending batch from a place on would end as a body of its own behind the rows before it.
fn own_end(log: &Log, pending: &Pending, start: usize) -> u64
    requires few { pending.now.count < MOST_ROWS }
    requires begun { AHEAD ≤ start }
    requires within { start ≤ length pending.now.body }
    requires short { length_with pending.now < BODY_LENGTHS }
    ensures { result ≡ behind_pending log.now.end (cut_to start pending.now) + AROUND_BODY +
        (1 + length (drop start pending.now.body)) }
{
    let own = (AROUND_BODY + 1 + (pending.body.len() - start)) as u64;
    if pending.count == 0 {
        return log.end() + own;
    }
    let before = start - AHEAD + list_front_len(pending.count);
    log.end() + (BEFORE_BODY + before) as u64 + own
}

// Whether the log has room for the pending batch with the row that stands in it from a place on.
fn fit_row(log: &Log, pending: &Pending, start: usize) -> Result<(), StoreFault>
    requires few { pending.now.count < MOST_ROWS }
    requires begun { AHEAD ≤ start }
    requires within { start ≤ length pending.now.body }
    ensures fits { OnOk result (FitsWith log.now pending.now) }
    ensures full { (e : ℕ) → result ≡ Err (StoreFault.Full e)
        → IsFullWith log.now start pending.now e }
    ensures cause { IfErr result (λ f. (f ≡ StoreFault.Memory)
        ⊎ ((e : ℕ) × (f ≡ StoreFault.Full e))) }
{
    let rows = pending.body.len() - AHEAD;
    let len = rows.saturating_add(list_front_len(pending.count + 1));
    if len as u64 >= BODY_LENGTHS {
        return Err(StoreFault::Memory);
    }
    match log.fits(len as u32) {
        Ok(()) => Ok(()),
        Err(_) => Err(StoreFault::Full(own_end(log, pending, start))),
    }
}

// Takes the row that stands in a pending batch from a place on into what is known, if the log has room for it.
fn learn_fitting(
    log: &Log,
    core: &mut Core,
    window: &mut Window,
    pending: &Pending,
    start: usize,
    row: &mut Row,
) -> Result<(), StoreFault>
    requires few { pending.now.count < MOST_ROWS }
    requires begun { AHEAD ≤ start }
    requires within { start ≤ length pending.now.body }
    ensures fits { OnOk result (FitsWith log.now pending.now) }
    ensures core { OnOk result ((J : List TheRow) → Holds core.old J
        → Holds core.new (J ++ row.old ∷ [])) }
    ensures window { OnOk result (window.new.places ≡ window.old.places
        ++ place_of log.now.end pending.now.count row.old) }
    ensures core_kept { OnErr result ((J : List TheRow) → Holds core.old J → Holds core.new J) }
    ensures window_kept { OnErr result (window.new.places ≡ window.old.places) }
    ensures full { (e : ℕ) → result ≡ Err (StoreFault.Full e)
        → IsFullWith log.now start pending.now e }
    ensures cause { IfErr result (λ f. (f ≡ StoreFault.Memory)
        ⊎ ((e : ℕ) × (f ≡ StoreFault.Full e))) }
{
    fit_row(log, pending, start)?;
    learn_row(core, window, log.end(), pending.count as u8, row)?;
    Ok(())
}

// Takes the row that stands in a pending batch from a place on. Where it can't be taken, it is dropped.
fn take_in(
    alloc: Global,
    log: &Log,
    core: &mut Core,
    window: &mut Window,
    pending: &mut Pending,
    start: usize,
    row: &mut Row,
) -> Result<(), StoreFault>
    requires few { pending.old.count < MOST_ROWS }
    requires begun { AHEAD ≤ start }
    requires within { start ≤ length pending.old.body }
    requires fits { Fits log.now (cut_to start pending.old) }
    ensures begun { AHEAD ≤ length pending.new.body }
    ensures fits { Fits log.now pending.new }
    ensures ok { OnOk result (IsApplied log.now.end row.old core.old core.new
        window.old.places window.new.places pending.old pending.new) }
    ensures as_before { OnErr result (IsUnchanged core.old core.new
        window.old.places window.new.places (cut_to start pending.old) pending.new) }
    ensures full { (e : ℕ) → result ≡ Err (StoreFault.Full e)
        → IsFullWith log.now start pending.old e }
    ensures cause { IfErr result (λ f. (f ≡ StoreFault.Memory)
        ⊎ ((e : ℕ) × (f ≡ StoreFault.Full e))) }
{
    match learn_fitting(log, core, window, pending, start, row) {
        Ok(()) => {
            pending.count += 1;
            Ok(())
        }
        Err(fault) => {
            pending.cut_back(alloc, start);
            Err(fault)
        }
    }
}

/// Takes a row into what is known and into the body under way, where it is encoded; memory first.
pub(crate) fn add_row(
    alloc: Global,
    log: &Log,
    core: &mut Core,
    window: &mut Window,
    pending: &mut Pending,
    mut row: Row,
) -> Result<(), StoreFault>
    requires few { pending.old.count < MOST_ROWS }
    requires begun { AHEAD ≤ length pending.old.body }
    requires fits { Fits log.now pending.old }
    ensures begun { AHEAD ≤ length pending.new.body }
    ensures fits { Fits log.now pending.new }
    ensures ok { OnOk result
        (IsAdded log.now.end row core.old core.new window.old.places window.new.places pending.old
        pending.new) }
    ensures as_before { OnErr result (IsUnchanged core.old core.new
        window.old.places window.new.places pending.old pending.new) }
    ensures full { (e : ℕ) → result ≡ Err (StoreFault.Full e) → (rows : List TheRow)
        → HasRows rows pending.old → IsFull log.now rows row e }
    ensures cause { IfErr result (λ f. (f ≡ StoreFault.Memory)
        ⊎ ((e : ℕ) × (f ≡ StoreFault.Full e))) }
{
    let start = pending.body.len();
    match write_row(&mut pending.body, &row) {
        Ok(()) => {
            let taken = take_in(alloc, log, core, window, pending, start, &mut row);
            drop(row);
            taken
        }
        Err(_) => {
            pending.cut_back(alloc, start);
            Err(StoreFault::Memory)
        }
    }
}

/// Takes the row of a message into what is known and into the body under way, where the message that goes out is encoded, and
/// nowhere else; memory first.
pub(crate) fn add_new_row(
    alloc: Global,
    log: &Log,
    core: &mut Core,
    window: &mut Window,
    pending: &mut Pending,
    new_row: NewRow,
) -> Result<(), StoreFault>
    requires few { pending.old.count < MOST_ROWS }
    requires begun { AHEAD ≤ length pending.old.body }
    requires fits { Fits log.now pending.old }
    ensures begun { AHEAD ≤ length pending.new.body }
    ensures fits { Fits log.now pending.new }
    ensures ok { OnOk result (IsAdded log.now.end
        (TheRow.Taken new_row) core.old core.new window.old.places window.new.places pending.old
        pending.new) }
    ensures as_before { OnErr result (IsUnchanged core.old core.new
        window.old.places window.new.places pending.old pending.new) }
    ensures full { (e : ℕ) → result ≡ Err (StoreFault.Full e) → (rows : List TheRow)
        → HasRows rows pending.old → IsFull log.now rows (TheRow.Taken new_row) e }
    ensures cause { IfErr result (λ f. (f ≡ StoreFault.Memory)
        ⊎ ((e : ℕ) × (f ≡ StoreFault.Full e))) }
{
    let start = pending.body.len();
    match write_new_row(&mut pending.body, &new_row) {
        Ok(()) => {
            let mut row = Row::Taken(new_row.into_parts());
            let taken = take_in(alloc, log, core, window, pending, start, &mut row);
            drop(row);
            taken
        }
        Err(_) => {
            pending.cut_back(alloc, start);
            Err(StoreFault::Memory)
        }
    }
}
