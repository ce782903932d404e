//! A trial of merges.

ghost use Rattle.std.specs.Prelude.{◌≡◌, ◌≤◌, [], List, ℕ, length, IfOk};
ghost use Rattle.relay_disk.specs.MemoryView.{memory_view};
ghost use Rattle.relay_gen.specs.Histories.{history as history_of};
ghost use Rattle.relay_gen.specs.declared.history.TheConstants.{MOST_MESSAGES};
ghost use Rattle.account_state.specs.Folds.{account as account_in};
ghost use Rattle.relay_core.specs.Entries.{Holds};
ghost use Rattle.relay_row.specs.declared.row.Row.{Row as TheRow};
ghost use Rattle.trial_run.specs.Summary.{summary};
ghost use Rattle.trial_run.specs.Taking.{IsMerged};
ghost use Rattle.trial_run.specs.Merging.{by_host};
ghost use Rattle.at_cid.specs.Counts.{Counted};
ghost use Rattle.trial_run.specs.Tried.{MayEndTrying, TrialCameTo, Tried};

use crate::merging::Merge;
use crate::summing::{are_same, sum_up};
use at_cid::{Memory, Octets};
use relay_disk::MemoryDisk;
use relay_gen::{History, make};
use relay_io::{Sink, write_all};
use relay_store::Store;
use run_base::Status;
use std::alloc::Global;

// The history that is drawn from a number, of so many messages.
fn drawn(alloc: Global, start: u64, n: u32) -> Result<History, Memory>
    requires least { 1 ≤ n }
    requires most { n ≤ MOST_MESSAGES }
    ensures made { IfOk result (λ made. made ≡ history_of start n) }
    ensures count { IfOk result (λ made. n ≡ length made.messages) }
{
    match make(alloc, start, n) {
        Ok(history) if history.len() == n as usize => Ok(history),
        _ => Err(Memory),
    }
}

// Takes a history in its order, into a store on an empty disk.
fn in_order(
    alloc: Global,
    disk: &mut MemoryDisk,
    history: &History,
    n: u32,
) -> Result<Merge, Memory>
    requires n { n ≡ length history.now.messages }
    requires empty { (memory_view disk.old).content ≡ [] }
    ensures { IfOk result (λ merge. IsMerged history.now.messages merge (memory_view disk.new)) }
{
    let mut merge = Merge::open(alloc, disk)?;
    merge.take_those(alloc, disk, history, n, None)?;
    Ok(merge)
}

// Takes a history host after host, into a store on an empty disk.
fn host_after_host(
    alloc: Global,
    disk: &mut MemoryDisk,
    history: &History,
    n: u32,
) -> Result<Merge, Memory>
    requires n { n ≡ length history.now.messages }
    requires empty { (memory_view disk.old).content ≡ [] }
    ensures { IfOk result (λ merge. IsMerged (by_host history.now.messages) merge
        (memory_view disk.new)) }
{
    let mut merge = Merge::open(alloc, disk)?;
    merge.take_by_host(alloc, disk, history, n)?;
    Ok(merge)
}

// The summary of two stores that say the same of all accounts.
fn summed(
    alloc: Global,
    start: u64,
    n: u32,
    keys: u64,
    one: &Store,
    other: &Store,
) -> Result<Octets, Memory>
    ensures { IfOk result (λ text. (J K : List TheRow) → Holds one.now.core J
        → Holds other.now.core K
        → ((did : List ℕ) → account_in did J ≡ account_in did K) → text ≡ summary start n keys J) }
{
    let same = are_same(alloc, one, other)?;
    let text = sum_up(alloc, start, n, keys, one, same)?;
    Ok(text)
}

// Takes a history in both orders, and gives the summary.
fn try_both(
    alloc: Global,
    start: u64,
    n: u32,
    first: &mut MemoryDisk,
    second: &mut MemoryDisk,
) -> Result<Octets, Memory>
    requires least { 1 ≤ n }
    requires most { n ≤ MOST_MESSAGES }
    requires first { (memory_view first.old).content ≡ [] }
    requires second { (memory_view second.old).content ≡ [] }
    ensures { IfOk result (λ text. TrialCameTo (λ whole. text ≡ whole) start n
        (memory_view first.new).content (memory_view second.new).content) }
{
    let history = drawn(alloc, start, n)?;
    let one = in_order(alloc, first, &history, n)?;
    let other = host_after_host(alloc, second, &history, n)?;
    let text = summed(alloc, start, n, history.keys(), one.store(), other.store())?;
    Ok(text)
}

/// Takes the history of `n` messages, 1 to 100,000, that is drawn from a number, into stores on two empty disks: on the
/// first in its order, on the second host after host. Every host is trusted. It writes how many accounts have a commit, how many
/// numbers were given and how many keys there are; that both orders came to the same accounts; and the link over the roots of all
/// trees. It holds all messages at once, and what a disk in memory keeps of them.
pub fn trial_on<O: Sink>(
    alloc: Global,
    start: u64,
    n: u32,
    first: &mut MemoryDisk,
    second: &mut MemoryDisk,
    out: &mut O,
) -> Status
    requires least { 1 ≤ n }
    requires most { n ≤ MOST_MESSAGES }
    requires first { (memory_view first.old).content ≡ [] }
    requires second { (memory_view second.old).content ≡ [] }
    ensures tried { Tried O.tells start n (memory_view first.new).content
        (memory_view second.new).content (O.written out.old) (O.written out.new) result }
    ensures may { MayEndTrying result }
    ensures out { Counted (result ≡ Status.WriteFault) (O.faults out.old) (O.faults out.new) }
{
    let text = match try_both(alloc, start, n, first, second) {
        Ok(text) => text,
        Err(_) => return Status::Memory,
    };
    match write_all(out, text.as_slice()) {
        Ok(()) => Status::Done,
        Err(_) => Status::WriteFault,
    }
}

/// The same, of at most 100,000 messages, on two disks that it makes.
pub fn trial<O: Sink>(alloc: Global, start: u64, n: u64, out: &mut O) -> Status
    requires least { 1 ≤ n }
    requires most { n ≤ MOST_MESSAGES }
    ensures tried { (first second : List ℕ)
        × Tried O.tells start n first second (O.written out.old) (O.written out.new) result }
    ensures may { MayEndTrying result }
    ensures out { Counted (result ≡ Status.WriteFault) (O.faults out.old) (O.faults out.new) }
{
    let (Ok(mut first), Ok(mut second)) = (
        MemoryDisk::new(alloc, &[], &[]),
        MemoryDisk::new(alloc, &[], &[]),
    ) else {
        return Status::Memory;
    };
    trial_on(alloc, start, n as u32, &mut first, &mut second, out)
}
