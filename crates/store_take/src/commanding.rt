//! Operators' commands taken.

ghost use Rattle.std.specs.Prelude.{◌≡◌, ◌≢◌, ◌≤◌, ◌<◌, ◌++◌, [], List, length, false, Err, IsTrue, IfOk, IfErr, OnOk, OnErr};
ghost use Rattle.at_cid.specs.Counts.{Rose};
ghost use Rattle.at_syntax.specs.Did.{is_did};
ghost use Rattle.at_form.specs.declared.forms.TheConstants.{LONGEST_SHORT_TEXT};
ghost use Rattle.gate_log.specs.declared.pending_bodies.TheConstants.{AHEAD};
ghost use Rattle.relay_row.specs.Journal.{IsJournal};
ghost use Rattle.relay_row.specs.declared.limits.TheConstants.{MOST_ROWS};
ghost use Rattle.relay_row.specs.declared.row.Row.{Row as TheRow};
ghost use Rattle.relay_step.specs.Around.{SameAsked, around_of};
ghost use Rattle.relay_step.specs.Asked.{AskedInVain};
ghost use Rattle.relay_step.specs.Causes.{CameToNothing, OneTaken, SpendsNone};
ghost use Rattle.relay_step.specs.Commands.{EndsBehind, EndsFetched, OperatedAt, SpentFetching, SyncedAt, rows_commanded};
ghost use Rattle.relay_store.specs.PendingBodies.{Fits, HasRows, IsUnchanged};
ghost use Rattle.relay_store.specs.Store.{IsKept, IsOf, seen_in};
ghost use Rattle.store_take.specs.Taking.{AreAdded};
ghost use Rattle.relay_store.specs.declared.fault.StoreFault.{StoreFault as TheFault};
ghost use Rattle.store_take.specs.Commands.{IsLate, IsOfOperating, IsOfCommand, CommandDone, Commanded, done_of, done_row};

use crate::adding::add_row;
use crate::committing::commit;
use crate::done::Done;
use crate::fault::of_step;
use at_authority::Judges;
use event_window::Window;
use gate_log::Log;
use relay_core::Core;
use relay_disk::Disk;
use relay_io::{Clock, Repos};
use relay_row::Row;
use relay_step::{Asked, CommandAnswer};
use relay_store::{Pending, Store, StoreFault};
use std::alloc::Global;

fn done_of_row(row: &Row) -> Done
    ensures { result ≡ done_row row.now }
{
    match row {
        Row::Taken(_) | Row::Carried(_) => Done::Event(row.seq()),
        Row::Synced(_, whole, _) => Done::Synced(whole.seq, whole.records),
        Row::Operated(operated) => Done::Event(operated.seq),
    }
}

// Takes a word: its row, if it makes one, is applied and goes into the body under way.
fn take_command(
    alloc: Global,
    log: &Log,
    core: &mut Core,
    window: &mut Window,
    pending: &mut Pending,
    command: CommandAnswer,
) -> Result<Done, StoreFault>
    requires few { pending.old.count < MOST_ROWS }
    requires begun { AHEAD ≤ length pending.old.body }
    requires fits { Fits log.now pending.old }
    ensures fits { Fits log.now pending.new }
    ensures ok { IfOk result (λ done. done ≡ done_of command) }
    ensures added { OnOk result (AreAdded log.now.end
        (rows_commanded command) core.old core.new window.old.places window.new.places pending.old
        pending.new) }
    ensures as_before { OnErr result (IsUnchanged core.old core.new
        window.old.places window.new.places pending.old pending.new) }
    ensures late { IfErr result (IsLate log.now pending.old (rows_commanded command)) }
{
    match command {
        CommandAnswer::Refused(refusal) => Ok(Done::Refused(refusal)),
        CommandAnswer::Made(row) => {
            let done = done_of_row(&row);
            match add_row(alloc, log, core, window, pending, row) {
                Ok(()) => Ok(done),
                Err(fault) => Err(fault),
            }
        }
    }
}

// Takes a word, and makes its row durable.
fn run_command<D: Disk>(
    store: &mut Store,
    alloc: Global,
    disk: &mut D,
    command: CommandAnswer,
) -> Result<Done, StoreFault>
    requires open { IsTrue store.old.log.is_open }
    requires on { IsTrue D.tells → IsKept (seen_in store.old) (D.view disk.old) }
    requires rows { HasRows [] store.old.pending }
    ensures commanded { (J : List TheRow) → IsOf J store.old.core
        → IsJournal (J ++ rows_commanded command)
        → Commanded D.view D.tells J command (seen_in store.old)
        (seen_in store.new) disk.old disk.new result }
    ensures open { result ≢ Err StoreFault.Disk → IsTrue store.new.log.is_open }
    ensures closed { result ≡ Err StoreFault.Disk → store.new.log.is_open ≡ false }
    ensures disk { result ≡ Err StoreFault.Disk
        → Rose (D.view disk.old).faults (D.view disk.new).faults }
    ensures disk_counts { (D.view disk.old).faults ≤ (D.view disk.new).faults }
    ensures few { (f : TheFault) → result ≡ Err f → IsOfCommand f }
    ensures disk_steady { result ≢ Err StoreFault.Disk
        → (D.view disk.new).faults ≡ (D.view disk.old).faults }
{
    match take_command(
        alloc,
        &store.log,
        &mut store.core,
        &mut store.window,
        &mut store.pending,
        command,
    ) {
        Err(fault) => Err(fault),
        Ok(done) => match commit(&mut store.log, disk, &mut store.pending) {
            Ok(()) => Ok(done),
            Err(fault) => Err(fault),
        },
    }
}

/// Takes an account down, or restores it, at an operator's command. `time` is that of the event by which this goes out.
pub fn operate<D: Disk, C: Clock>(
    store: &mut Store,
    alloc: Global,
    disk: &mut D,
    did: &str,
    down: bool,
    time: &str,
    clock: &mut C,
) -> Result<Done, StoreFault>
    requires open { IsTrue store.old.log.is_open }
    requires on { IsTrue D.tells → IsKept (seen_in store.old) (D.view disk.old) }
    requires did { IsTrue (is_did did.now) }
    requires time { length time.now ≤ LONGEST_SHORT_TEXT }
    ensures commanded { (J : List TheRow) → IsOf J store.old.core
        → CommandDone D.view D.tells J
        (λ command. OperatedAt C.tells store.old.core did.now down time.now
        (C.moments clock.old) command (C.moments clock.new))
        (IsTrue C.tells → OneTaken (C.moments clock.old) (C.moments clock.new))
        (seen_in store.old) (seen_in store.new) disk.old disk.new result }
    ensures open { result ≢ Err StoreFault.Disk → IsTrue store.new.log.is_open }
    ensures closed { result ≡ Err StoreFault.Disk → store.new.log.is_open ≡ false }
    ensures disk { result ≡ Err StoreFault.Disk
        → Rose (D.view disk.old).faults (D.view disk.new).faults }
    ensures clock { result ≡ Err StoreFault.Clock
        → Rose (C.faults clock.old) (C.faults clock.new) }
    ensures seq_end { result ≡ Err StoreFault.SeqEnd → EndsBehind store.old.core did.now down }
    ensures few { (f : TheFault) → result ≡ Err f → IsOfOperating f }
    ensures disk_counts { (D.view disk.old).faults ≤ (D.view disk.new).faults }
    ensures clock_counts { C.faults clock.old ≤ C.faults clock.new }
    ensures disk_steady { result ≢ Err StoreFault.Disk
        → (D.view disk.new).faults ≡ (D.view disk.old).faults }
    ensures clock_steady { result ≢ Err StoreFault.Clock
        → C.faults clock.new ≡ C.faults clock.old }
{
    match store.pending.start() {
        Ok(()) => {}
        Err(_) => return Err(StoreFault::Memory),
    }
    match relay_step::operate(alloc, &store.core, did, down, time, clock) {
        Ok(command) => run_command(store, alloc, disk, command),
        Err(fault) => Err(of_step(fault)),
    }
}

/// Fetches an account's repository at an operator's command, and takes it over. `time` is that of the event by which this goes out.
pub fn sync_now<D: Disk, P: Judges, R: Repos, C: Clock>(
    store: &mut Store,
    alloc: Global,
    disk: &mut D,
    did: &str,
    time: &str,
    asked: &mut Asked<P, R, C>,
) -> Result<Done, StoreFault>
    requires open { IsTrue store.old.log.is_open }
    requires on { IsTrue D.tells → IsKept (seen_in store.old) (D.view disk.old) }
    requires did { IsTrue (is_did did.now) }
    requires time { length time.now ≤ LONGEST_SHORT_TEXT }
    ensures commanded { let old = around_of P.panel C.moments R.repository asked.old in
        let new = around_of P.panel C.moments R.repository asked.new in
        (J : List TheRow) → IsOf J store.old.core → CommandDone D.view D.tells J
        (λ command. SyncedAt C.tells R.tells store.old.core did.now time.now old command new)
        (CameToNothing C.tells R.tells (AskedInVain old.panel did.now new.panel) old new)
        (seen_in store.old) (seen_in store.new) disk.old disk.new result }
    ensures open { result ≢ Err StoreFault.Disk → IsTrue store.new.log.is_open }
    ensures closed { result ≡ Err StoreFault.Disk → store.new.log.is_open ≡ false }
    ensures disk { result ≡ Err StoreFault.Disk
        → Rose (D.view disk.old).faults (D.view disk.new).faults }
    ensures clock { result ≡ Err StoreFault.Clock
        → Rose (C.faults asked.old.clock.now) (C.faults asked.new.clock.now) }
    ensures repos { result ≡ Err StoreFault.Repos
        → Rose (R.faults asked.old.repos.now) (R.faults asked.new.repos.now) }
    ensures spent { result ≡ Err StoreFault.Authority
        → SpentFetching C.tells R.tells store.old.core did.now
        (around_of P.panel C.moments R.repository asked.old)
        (around_of P.panel C.moments R.repository asked.new) }
    ensures seq_end { result ≡ Err StoreFault.SeqEnd
        → EndsFetched C.tells R.tells store.old.core did.now
        (around_of P.panel C.moments R.repository asked.old)
        (around_of P.panel C.moments R.repository asked.new) }
    ensures disk_counts { (D.view disk.old).faults ≤ (D.view disk.new).faults }
    ensures clock_counts { C.faults asked.old.clock.now ≤ C.faults asked.new.clock.now }
    ensures repos_count { R.faults asked.old.repos.now ≤ R.faults asked.new.repos.now }
    ensures disk_steady { result ≢ Err StoreFault.Disk
        → (D.view disk.new).faults ≡ (D.view disk.old).faults }
    ensures clock_steady { result ≢ Err StoreFault.Clock
        → C.faults asked.new.clock.now ≡ C.faults asked.old.clock.now }
    ensures repos_steady { result ≢ Err StoreFault.Repos
        → R.faults asked.new.repos.now ≡ R.faults asked.old.repos.now }
    ensures unspent { result ≢ Err StoreFault.Authority
        → SpendsNone (P.panel asked.old.judges.now) (P.panel asked.new.judges.now) }
    ensures same { SameAsked asked.old asked.new }
{
    match store.pending.start() {
        Ok(()) => {}
        Err(_) => return Err(StoreFault::Memory),
    }
    match relay_step::sync_now(alloc, &store.core, did, time, asked) {
        Ok(command) => run_command(store, alloc, disk, command),
        Err(fault) => Err(of_step(fault)),
    }
}
