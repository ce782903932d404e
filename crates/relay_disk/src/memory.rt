//! A disk in memory. It records the calls that were done, and none that failed; it fails where it is told to.
ghost use Rattle.std.specs.Prelude.{◌≡◌, ◌≤◌, ◌<◌, ◌+◌, ◌-◌, ◌↔◌, ◌++◌, ◌∷◌, [], true, length, take, drop, vec_len, vec_capacity, IsErr, IsTrue, IfOk, OnOk, OnErr};
ghost use Rattle.at_cid.specs.Counts.{Rose};
ghost use Rattle.relay_disk.specs.Disk.{written};
ghost use Rattle.relay_disk.specs.Works.{after, opened, view_of, view_is_disk};
ghost use Rattle.relay_disk.specs.Memory.{works_of, total};
ghost use Rattle.relay_disk.specs.Ranges.{AreInside, AreInside-prop};
ghost use Rattle.relay_disk.specs.declared.disk.TheConstants.{SIZES};

use crate::room::Room;
use crate::{Call, Disk, Failed};
use at_cid::{Failures, Memory};
use std::alloc::Global;

/// A disk in memory. It tells its content, takes its memory when it is made and by `reserve`, and keeps the
/// calls that were done, so that all that a crash may leave can be told. A call that fails does nothing, and is only
/// counted. At a sync it copies what stands behind the bytes in front that no call since the last one has changed.
#[derive(Drop)]
pub struct MemoryDisk {
    pub(crate) first: Vec<u8>,
    pub(crate) content: Vec<u8>,
    pub(crate) settled: Vec<u8>,
    pub(crate) unchanged: usize,
    pub(crate) calls: Vec<Call>,
    pub(crate) pieces: Vec<u8>,
    pub(crate) room: Room,
    ghost kept: { total calls.items ≡ length pieces.items },
    ghost in_step: { content.items ≡ (after (opened first.items) (works_of calls.items pieces.items)).content },
    ghost in_sync: { settled.items ≡ (after (opened first.items) (works_of calls.items pieces.items)).settled },
    ghost inside: { AreInside (length settled.items) (after (opened first.items) (works_of calls.items pieces.items)).since } by { AreInside-prop (length settled.items) (after (opened first.items) (works_of calls.items pieces.items)).since },
    ghost alike: { take unchanged settled.items ≡ take unchanged content.items },
    ghost in_content: { unchanged ≤ length content.items },
    ghost call_room: { vec_len calls + room.calls ≤ vec_capacity calls },
    ghost piece_room: { vec_len pieces + room.bytes ≤ vec_capacity pieces },
    ghost content_room: { vec_len content + room.bytes ≤ vec_capacity content },
    ghost settled_room: { vec_len content + room.bytes ≤ vec_capacity settled },
}

// Puts a piece at a place, where there is room for it.
fn put(content: &mut Vec<u8>, place: usize, piece: &[u8])
    requires inside { place ≤ length content.old.items }
    requires room { vec_len content.old + length piece.now ≤ vec_capacity content.old }
    ensures items { content.new.items ≡ written place piece.now content.old.items }
    ensures len { vec_len content.new ≤ vec_len content.old + length piece.now }
    ensures capacity { vec_capacity content.old ≤ vec_capacity content.new }
{
    if piece.len() <= content.len() - place {
        content[place..place + piece.len()].copy_from_slice(piece);
    } else {
        content.truncate(place);
        let _ = content.extend_from_slice(piece);
    }
}

// Keeps a call and what it wrote, where there is room for it.
fn keep(calls: &mut Vec<Call>, pieces: &mut Vec<u8>, call: Call, piece: &[u8])
    requires call_room { vec_len calls.old < vec_capacity calls.old }
    requires piece_room { vec_len pieces.old + length piece.now ≤ vec_capacity pieces.old }
    ensures calls { calls.new.items ≡ calls.old.items ++ call ∷ [] }
    ensures pieces { pieces.new.items ≡ pieces.old.items ++ piece.now }
    ensures call_capacity { vec_capacity calls.old ≤ vec_capacity calls.new }
    ensures piece_capacity { vec_capacity pieces.old ≤ vec_capacity pieces.new }
{
    let _ = calls.push(call);
    let _ = pieces.extend_from_slice(piece);
}

// Copies the content over what was settled, where there is room for it, from behind the bytes that are alike in both.
fn settle(settled: &mut Vec<u8>, content: &[u8], alike: usize)
    requires alike { take alike settled.old.items ≡ take alike content.now }
    requires inside { alike ≤ length content.now }
    requires room { length content.now ≤ vec_capacity settled.old }
    ensures items { settled.new.items ≡ content.now }
    ensures capacity { vec_capacity settled.old ≤ vec_capacity settled.new }
{
    settled.truncate(alike);
    let _ = settled.extend_from_slice(&content[alike..]);
}

impl MemoryDisk {
    ghost use Rattle.relay_disk.specs.Disk.{Goes, Same, IsAsBefore, IsSettled};
    ghost use Rattle.relay_disk.specs.MemoryView.{memory_view, calls_of, failing as failing_numbers, taken, spare_calls, spare_bytes};

    /// A disk with this content, synced, whose calls with these numbers fail. The first call has the number 1.
    pub fn new(alloc: Global, content: &[u8], failing: &[u64]) -> Result<MemoryDisk, Memory>
        ensures content { IfOk result (λ disk. IsSettled (memory_view disk) content.now) }
        ensures failing { IfOk result (λ disk. failing_numbers disk ≡ failing.now) }
        ensures taken { IfOk result (λ disk. taken disk ≡ 0) }
        ensures calls { IfOk result (λ disk. calls_of disk ≡ []) }
        ensures faults { IfOk result (λ disk. (memory_view disk).faults ≡ 0) }
    {
        let failures = Failures::new(alloc, failing)?;
        let room = Room {
            calls: 0,
            bytes: 0,
            failures,
        };
        Ok(MemoryDisk {
            first: Vec::from_slice(alloc, content)?,
            content: Vec::from_slice(alloc, content)?,
            settled: Vec::from_slice(alloc, content)?,
            unchanged: content.len(),
            calls: Vec::new(alloc),
            pieces: Vec::new(alloc),
            room,
        })
    }

    /// Makes room for so many calls more, and for so many bytes in their writes. It is no call of the disk.
    pub fn reserve(&mut self, calls: usize, bytes: usize) -> Result<(), Memory>
        ensures calls { OnOk result (calls ≤ spare_calls self.new) }
        ensures bytes { OnOk result (bytes ≤ spare_bytes self.new) }
        ensures failing { failing_numbers self.new ≡ failing_numbers self.old }
        ensures taken { taken self.new ≡ taken self.old }
        ensures content { (memory_view self.new).content ≡ (memory_view self.old).content }
        ensures recorded { calls_of self.new ≡ calls_of self.old }
        ensures kept_calls { spare_calls self.old ≤ spare_calls self.new }
        ensures kept_bytes { spare_bytes self.old ≤ spare_bytes self.new }
        ensures as_before { IsAsBefore (memory_view self.old) (memory_view self.new) }
        ensures goes { Goes Same (memory_view self.old) (memory_view self.new) }
    {
        let calls = calls.max(self.room.calls);
        let bytes = bytes.max(self.room.bytes);
        self.calls.reserve(calls)?;
        self.pieces.reserve(bytes)?;
        self.content.reserve(bytes)?;
        let most = self.content.len() + bytes;
        self.settled
            .reserve(most.saturating_sub(self.settled.len()))?;
        self.room.calls = calls;
        self.room.bytes = bytes;
        Ok(())
    }

    /// The bytes that a read gives.
    pub fn content(&self) -> &[u8]
        ensures { result.now ≡ (memory_view self.now).content }
    {
        &self.content
    }

    /// The calls that were done, in their order. Those that failed are not among them.
    pub fn calls(&self) -> &[Call]
        ensures { result.now ≡ calls_of self.now }
    {
        &self.calls
    }
}

impl Disk for MemoryDisk {
    ghost use Rattle.relay_disk.specs.Disk.{Goes, Same, Torn, Cut, IsSynced};
    ghost use Rattle.relay_disk.specs.MemoryView.{memory_view, IsToFail, Takes, Does, DoesNothing};

    ghost tells = { true };

    ghost view = { λ d. view_of d.first.items (works_of d.calls.items d.pieces.items) d.room.failures.faults };

    ghost is_disk = { λ d. view_is_disk d.first.items (works_of d.calls.items d.pieces.items) d.room.failures.faults };

    fn size(&mut self) -> Result<u64, Failed>
        ensures size { IfOk result
            (λ size. IsTrue true → size ≡ length (memory_view self.old).content) }
        ensures below { IfOk result (λ size. size < SIZES) }
        ensures goes { Goes Same (memory_view self.old) (memory_view self.new) }
        ensures steady { OnOk result
            ((memory_view self.new).faults ≡ (memory_view self.old).faults) }
        ensures failed { OnErr result
            (Rose (memory_view self.old).faults (memory_view self.new).faults) }
        ensures fails { IsErr result ↔ IsToFail 0 self.old }
        ensures taken { Takes self.old self.new }
        ensures done { OnOk result (Does Call.Size 0 self.old self.new) }
        ensures not_done { OnErr result (DoesNothing self.old self.new) }
    {
        self.room.take(0)?;
        keep(&mut self.calls, &mut self.pieces, Call::Size, &[]);
        Ok(self.content.len() as u64)
    }

    fn read(&mut self, place: u64, room: &mut [u8]) -> Result<(), Failed>
        requires { IsTrue true → place + length room.old ≤ length (memory_view self.old).content }
        ensures bytes { OnOk result (IsTrue true →
            room.new ≡ take (length room.old) (drop place (memory_view self.old).content)) }
        ensures goes { Goes Same (memory_view self.old) (memory_view self.new) }
        ensures steady { OnOk result
            ((memory_view self.new).faults ≡ (memory_view self.old).faults) }
        ensures failed { OnErr result
            (Rose (memory_view self.old).faults (memory_view self.new).faults) }
        ensures fails { IsErr result ↔ IsToFail 0 self.old }
        ensures taken { Takes self.old self.new }
        ensures done { OnOk result (Does (Call.Read place (length room.old)) 0 self.old self.new) }
        ensures not_done { OnErr result (DoesNothing self.old self.new) }
    {
        self.room.take(0)?;
        let call = Call::Read(place, room.len());
        keep(&mut self.calls, &mut self.pieces, call, &[]);
        let place = place as usize;
        room.copy_from_slice(&self.content[place..place + room.len()]);
        Ok(())
    }

    fn write_at(&mut self, place: u64, piece: &[u8]) -> Result<(), Failed>
        requires inside { IsTrue true → place ≤ length (memory_view self.old).content }
        requires below { place + length piece.now < SIZES }
        ensures ok { OnOk result (IsTrue true → (memory_view self.new).content
            ≡ written place piece.now (memory_view self.old).content) }
        ensures goes { Goes (Torn place (length piece.now))
            (memory_view self.old) (memory_view self.new) }
        ensures steady { OnOk result
            ((memory_view self.new).faults ≡ (memory_view self.old).faults) }
        ensures failed { OnErr result
            (Rose (memory_view self.old).faults (memory_view self.new).faults) }
        ensures fails { IsErr result ↔ IsToFail (length piece.now) self.old }
        ensures taken { Takes self.old self.new }
        ensures done { OnOk result
            (Does (Call.Write place (length piece.now)) (length piece.now) self.old self.new) }
        ensures not_done { OnErr result (DoesNothing self.old self.new) }
    {
        self.room.take(piece.len())?;
        put(&mut self.content, place as usize, piece);
        self.unchanged = self.unchanged.min(place as usize);
        let call = Call::Write(place, piece.len());
        keep(&mut self.calls, &mut self.pieces, call, piece);
        Ok(())
    }

    fn cut(&mut self, size: u64) -> Result<(), Failed>
        requires { IsTrue true → size ≤ length (memory_view self.old).content }
        ensures ok { OnOk result (IsTrue true
            → (memory_view self.new).content ≡ take size (memory_view self.old).content) }
        ensures goes { Goes (Cut size) (memory_view self.old) (memory_view self.new) }
        ensures steady { OnOk result
            ((memory_view self.new).faults ≡ (memory_view self.old).faults) }
        ensures failed { OnErr result
            (Rose (memory_view self.old).faults (memory_view self.new).faults) }
        ensures fails { IsErr result ↔ IsToFail 0 self.old }
        ensures taken { Takes self.old self.new }
        ensures done { OnOk result (Does (Call.Cut size) 0 self.old self.new) }
        ensures not_done { OnErr result (DoesNothing self.old self.new) }
    {
        self.room.take(0)?;
        self.content.truncate(size as usize);
        self.unchanged = self.unchanged.min(size as usize);
        keep(&mut self.calls, &mut self.pieces, Call::Cut(size), &[]);
        Ok(())
    }

    fn sync(&mut self) -> Result<(), Failed>
        ensures ok { OnOk result (IsTrue true → IsSynced (memory_view self.new)) }
        ensures goes { Goes Same (memory_view self.old) (memory_view self.new) }
        ensures steady { OnOk result
            ((memory_view self.new).faults ≡ (memory_view self.old).faults) }
        ensures failed { OnErr result
            (Rose (memory_view self.old).faults (memory_view self.new).faults) }
        ensures fails { IsErr result ↔ IsToFail 0 self.old }
        ensures taken { Takes self.old self.new }
        ensures done { OnOk result (Does Call.Sync 0 self.old self.new) }
        ensures not_done { OnErr result (DoesNothing self.old self.new) }
    {
        self.room.take(0)?;
        settle(&mut self.settled, &self.content, self.unchanged);
        self.unchanged = self.content.len();
        keep(&mut self.calls, &mut self.pieces, Call::Sync, &[]);
        Ok(())
    }
}
