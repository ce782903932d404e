//! Taking made messages into a store that begins with nothing, on a disk in memory.

ghost use Rattle.std.specs.Prelude.{◌≡◌, ◌++◌, ◌∷◌, [], length, true, option_map, IfOk, OnOk};
ghost use Rattle.at_cbor.specs.Encoding.{IsString};
ghost use Rattle.relay_disk.specs.MemoryView.{memory_view};
ghost use Rattle.trial_run.specs.Merging.{Sent, by_host};
ghost use Rattle.trial_run.specs.Taking.{IsMerged, is_chosen, those};

use at_authority::TrustAll;
use at_cid::Memory;
use at_syntax::host_ok;
use gate_log::Side;
use relay_disk::MemoryDisk;
use relay_gen::{History, host_of};
use relay_io::{LONGEST_FEED_MESSAGE, ListClock, MemoryRepos};
use relay_step::Asked;
use relay_store::{LONGEST, Store};
use std::alloc::Global;
use store_take::{Outcome, take};

/// Room for the calls of a disk that opening makes, or taking a message.
const CALLS: usize = 16;

/// Room for what a body has beside the message, and for what opening writes.
const AROUND: usize = 4_096;

/// A store into which messages are taken, with a clock that stands at 0, and without repositories.
#[derive(Drop)]
pub(crate) struct Merge {
    store: Store,
    clock: ListClock,
    repos: MemoryRepos,
}

// Whether a message of this host is wanted.
fn is_chosen(wanted: Option<&str>, host: &str) -> bool
    ensures { result ≡ is_chosen (option_map (λ text. text.now) wanted.entry) host.now }
{
    match wanted {
        Some(name) => name == host,
        None => true,
    }
}

// Whether a message is one that a host may send.
fn is_string(message: &[u8]) -> bool
    ensures { result ≡ true → IsString message.now }
{
    message.len() <= LONGEST_FEED_MESSAGE
}

impl Merge {
    /// Opens a store on an empty disk.
    pub fn open(alloc: Global, disk: &mut MemoryDisk) -> Result<Merge, Memory>
        requires empty { (memory_view disk.old).content ≡ [] }
        ensures { IfOk result (λ merge. IsMerged [] merge (memory_view disk.new)) }
    {
        let clock = ListClock::new(alloc, &[0], &[])?;
        let repos = MemoryRepos::new(alloc, Vec::new(alloc), 1, &[])?;
        let mut other = MemoryDisk::new(alloc, &[], &[])?;
        other.reserve(CALLS, AROUND)?;
        disk.reserve(CALLS, AROUND)?;
        let store = match Store::open(alloc, disk, &mut other, LONGEST) {
            Ok(store) => store,
            Err(_) => return Err(Memory),
        };
        match store.side() {
            Side::One => Ok(Merge {
                store,
                clock,
                repos,
            }),
            Side::Two => Err(Memory),
        }
    }

    /// Takes a message. After an error nothing is said of what was taken.
    fn take(
        &mut self,
        alloc: Global,
        disk: &mut MemoryDisk,
        host: &str,
        message: &[u8],
    ) -> Result<(), Memory>
        requires merged { (sent : Sent) × IsMerged sent self.old (memory_view disk.old) }
        ensures { OnOk result ((sent : Sent) → IsMerged sent self.old (memory_view disk.old)
            → IsMerged (sent ++ (host.now, message.now) ∷ []) self.new (memory_view disk.new)) }
    {
        if !host_ok(host) {
            return Err(Memory);
        }
        if !is_string(message) {
            return Err(Memory);
        }
        disk.reserve(CALLS, message.len().saturating_add(AROUND))?;
        let mut asked = Asked {
            judges: &mut TrustAll,
            repos: &mut self.repos,
            clock: &mut self.clock,
        };
        match take(&mut self.store, alloc, disk, host, message, &mut asked) {
            Ok(Outcome::Event(_, _)) => Ok(()),
            // The histories are honest, and every event of them goes out: there is no other outcome.
            Ok(_) | Err(_) => Err(Memory),
        }
    }

    /// Takes the messages of a history, of one host or of all.
    pub fn take_those(
        &mut self,
        alloc: Global,
        disk: &mut MemoryDisk,
        history: &History,
        n: u32,
        wanted: Option<&str>,
    ) -> Result<(), Memory>
        requires n { n ≡ length history.now.messages }
        requires merged { (sent : Sent) × IsMerged sent self.old (memory_view disk.old) }
        ensures { OnOk result ((sent : Sent) → IsMerged sent self.old (memory_view disk.old)
            → IsMerged (sent ++ those (option_map
            (λ text. text.now) wanted.entry) history.now.messages) self.new
            (memory_view disk.new)) }
    {
        'messages: for i in 0..n {
            let host = history.host(i + 1);
            if is_chosen(wanted, host) {
                self.take(alloc, disk, host, history.message(i + 1))?;
            }
        }
        Ok(())
    }

    /// Takes the messages of a history, host after host.
    pub fn take_by_host(
        &mut self,
        alloc: Global,
        disk: &mut MemoryDisk,
        history: &History,
        n: u32,
    ) -> Result<(), Memory>
        requires n { n ≡ length history.now.messages }
        requires merged { (sent : Sent) × IsMerged sent self.old (memory_view disk.old) }
        ensures { OnOk result ((sent : Sent) → IsMerged sent self.old (memory_view disk.old)
            → IsMerged (sent ++ by_host history.now.messages) self.new (memory_view disk.new)) }
    {
        self.take_those(alloc, disk, history, n, Some(host_of(0)))?;
        self.take_those(alloc, disk, history, n, Some(host_of(1)))?;
        self.take_those(alloc, disk, history, n, Some(host_of(2)))?;
        self.take_those(alloc, disk, history, n, Some(host_of(3)))?;
        Ok(())
    }

    /// What was taken.
    pub fn store(&self) -> &Store
        ensures { result.now ≡ self.now.store }
    {
        &self.store
    }
}
