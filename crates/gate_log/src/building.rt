//! Building a whole log on a disk, behind a gate that is opened at the end. Records are gathered, and written many at a time.
ghost use Rattle.std.specs.Prelude.{◌≡◌, ◌≤◌, ◌<◌, ◌+◌, ◌↔◌, ◌++◌, ◌∷◌, [], List, ℕ, true, drop, length, vec_capacity, IsTrue, IfOk, OnOk, OnErr};
ghost use Rattle.at_cid.specs.Counts.{Rose};
ghost use Rattle.relay_disk.specs.Disk.{IsSettled, IsSynced};
ghost use Rattle.relay_disk.specs.Moments.{LeavesOnly};
ghost use Rattle.gate_log.specs.Image.{front, generation};
ghost use Rattle.at_cid.specs.Lengths.{length_prefixed};
ghost use Rattle.gate_log.specs.Crash.{Stands};
ghost use Rattle.gate_log.specs.Log.{HoldsBodies, IsOn};
ghost use Rattle.gate_log.specs.Build.{HasBuilt, IsBuiltOn, Builds, IsClosed, IsIdle, IsFormerOrIdle, IsClosedOrMade};
ghost use Rattle.at_cid.specs.declared.limits.TheConstants.{NUMBERS};
ghost use Rattle.gate_log.specs.declared.limits.TheConstants.{BEFORE_BODY, BODY_LENGTHS, LAST_END};

use crate::ending::settle;
use crate::limits::{AROUND_BODY, BEFORE_BODY, GATHERED, MARK_LEN, SECOND_FRONT_LEN};
use crate::steps::write_through;
use crate::{Format, Log, LogFault};
use at_cid::Memory;
use relay_disk::{Disk, Failed};
use std::alloc::Global;
use std::marker::Model;

// The mark of the second format behind its gate.
const BEHIND_GATE: [u8; MARK_LEN - 1] = *b"atrelay\x02";

/// A log of the second format that is being built on a disk, which is handed to each call. Until `finish` no crash
/// leaves a log on that disk that is picked before another disk's.
///
/// Records wait until they are 131,072 bytes or more, and are written together then, and at the end.
#[derive(Drop)]
pub struct Build {
    format: Format,
    end: u64,
    most: u64,
    // The records that wait.
    room: Vec<u8>,
}

impl Model for Build {
    ghost use Rattle.std.specs.Prelude.{◌≤◌, ◌<◌, length, vec_capacity};
    ghost use Rattle.gate_log.specs.declared.limits.TheConstants.{BEFORE_BODY, LAST_END};
    ghost use Rattle.gate_log.specs.Build.{BuildState};

    ghost Value = { BuildState };

    ghost view = { λ b. record { format = b.format; end = b.end; most = b.most; waiting = b.room.items } };

    // There is room for a closed gate behind what waits, and a log wants some.
    ghost invariant = { λ b. (length b.room.items < vec_capacity b.room) × (BEFORE_BODY ≤ vec_capacity b.room)
        × (length b.room.items ≤ b.end) × (b.end ≤ LAST_END) × (b.most ≤ LAST_END) };
}

// Takes everything off a disk, after closing its gate if that is open.
fn clear<D: Disk>(disk: &mut D) -> Result<(), Failed>
    ensures empty { OnOk result (IsTrue D.tells → IsSettled (D.view disk.new) []) }
    ensures moments { IsTrue D.tells
        → LeavesOnly (IsFormerOrIdle (D.view disk.old)) (D.view disk.old) (D.view disk.new) }
    ensures steady { OnOk result ((D.view disk.new).faults ≡ (D.view disk.old).faults) }
    ensures failed { OnErr result (Rose (D.view disk.old).faults (D.view disk.new).faults) }
    ensures counts { (D.view disk.old).faults ≤ (D.view disk.new).faults }
{
    let size = settle(disk)?;
    take_off(disk, size)
}

// Takes everything off a synced disk of so many bytes.
fn take_off<D: Disk>(disk: &mut D, size: u64) -> Result<(), Failed>
    requires synced { IsTrue D.tells → IsSynced (D.view disk.old) }
    requires size { IsTrue D.tells → size ≡ length (D.view disk.old).content }
    ensures empty { OnOk result (IsTrue D.tells → IsSettled (D.view disk.new) []) }
    ensures moments { IsTrue D.tells
        → LeavesOnly (IsFormerOrIdle (D.view disk.old)) (D.view disk.old) (D.view disk.new) }
    ensures steady { OnOk result ((D.view disk.new).faults ≡ (D.view disk.old).faults) }
    ensures failed { OnErr result (Rose (D.view disk.old).faults (D.view disk.new).faults) }
    ensures counts { (D.view disk.old).faults ≤ (D.view disk.new).faults }
{
    if size == 0 {
        return Ok(());
    }
    close(disk)?;
    disk.cut(0)?;
    disk.sync()
}

// Closes the gate of an older log. A gate that isn't open is not written: a crash on the way could open it.
fn close<D: Disk>(disk: &mut D) -> Result<(), Failed>
    requires synced { IsTrue D.tells → IsSynced (D.view disk.old) }
    requires some { IsTrue D.tells → 1 ≤ length (D.view disk.old).content }
    ensures closed { OnOk result
        (IsTrue D.tells → (c : List ℕ) → (D.view disk.new).may_leave c → IsClosed c) }
    ensures moments { IsTrue D.tells
        → LeavesOnly (IsFormerOrIdle (D.view disk.old)) (D.view disk.old) (D.view disk.new) }
    ensures steady { OnOk result ((D.view disk.new).faults ≡ (D.view disk.old).faults) }
    ensures failed { OnErr result (Rose (D.view disk.old).faults (D.view disk.new).faults) }
    ensures counts { (D.view disk.old).faults ≤ (D.view disk.new).faults }
{
    let mut gate = [0; 1];
    disk.read(0, &mut gate)?;
    if gate[0] != 1 {
        return Ok(());
    }
    write_through(disk, 0, &[0])
}

// Lays a closed gate and what follows it on an empty disk.
fn lay_front<D: Disk>(disk: &mut D, format: Format, behind: &[u8]) -> Result<(), Failed>
    requires empty { IsTrue D.tells → IsSettled (D.view disk.old) [] }
    requires front { behind.now ≡ drop 1 (front format) ++ 0 ∷ [] }
    requires below { generation format < NUMBERS }
    ensures begun { OnOk result
        (IsTrue D.tells → Builds format [] (length (front format)) (D.view disk.new)) }
    ensures moments { IsTrue D.tells → LeavesOnly IsIdle (D.view disk.old) (D.view disk.new) }
    ensures steady { OnOk result ((D.view disk.new).faults ≡ (D.view disk.old).faults) }
    ensures failed { OnErr result (Rose (D.view disk.old).faults (D.view disk.new).faults) }
    ensures counts { (D.view disk.old).faults ≤ (D.view disk.new).faults }
{
    write_through(disk, 0, &[0])?;
    disk.write_at(1, behind)
}

// Opens the gate in front of what was built, once that is durable.
fn open_gate<D: Disk>(disk: &mut D, format: Format) -> Result<(), Failed>
    requires { IsTrue D.tells
        → (bodies : List (List ℕ)) × (end : ℕ) × Builds format bodies end (D.view disk.old) }
    ensures made { OnOk result (IsTrue D.tells → (bodies : List (List ℕ)) (end : ℕ)
        → Builds format bodies end (D.view disk.old) → Stands format bodies end (D.view disk.new)) }
    ensures synced { OnOk result (IsTrue D.tells → IsSynced (D.view disk.new)) }
    ensures moments { IsTrue D.tells → (bodies : List (List ℕ)) (end : ℕ)
        → Builds format bodies end (D.view disk.old)
        → LeavesOnly (IsClosedOrMade format bodies) (D.view disk.old) (D.view disk.new) }
    ensures steady { OnOk result ((D.view disk.new).faults ≡ (D.view disk.old).faults) }
    ensures failed { OnErr result (Rose (D.view disk.old).faults (D.view disk.new).faults) }
    ensures counts { (D.view disk.old).faults ≤ (D.view disk.new).faults }
{
    disk.sync()?;
    write_through(disk, 0, &[1])
}

// What stands behind the first gate of a log of this generation that has no record.
fn front_behind(alloc: Global, generation: u64) -> Result<Vec<u8>, Memory>
    ensures bytes { IfOk result
        (λ room. room.items ≡ drop 1 (front (Format.Two generation)) ++ 0 ∷ []) }
    ensures capacity { IfOk result (λ room. BEFORE_BODY ≤ vec_capacity room) }
{
    let mut room = Vec::new(alloc);
    room.reserve(SECOND_FRONT_LEN)?;
    let _ = room.extend_from_slice(&BEHIND_GATE);
    let _ = room.extend_from_slice(&generation.to_be_bytes());
    let _ = room.push(0);
    Ok(room)
}

// Puts a record with its gate open behind what is in a room, and leaves room for a closed gate behind it.
fn put_open_record(room: &mut Vec<u8>, body: &[u8]) -> Result<(), Memory>
    requires short { length body.now < BODY_LENGTHS }
    ensures record { OnOk result (room.new.items ≡ room.old.items ++ 1 ∷ length_prefixed body.now) }
    ensures spare { OnOk result (length room.new.items < vec_capacity room.new) }
    ensures untouched { OnErr result (room.new.items ≡ room.old.items) }
    ensures capacity { vec_capacity room.old ≤ vec_capacity room.new }
{
    room.reserve(body.len() + AROUND_BODY)?;
    let _ = room.push(1);
    let _ = room.extend_from_slice(&(body.len() as u32).to_be_bytes());
    let _ = room.extend_from_slice(body);
    Ok(())
}

impl Build {
    /// Begins a log of this generation on a disk, whatever that holds: an older log there is closed first. No record
    /// is to end past `most`, which is in bytes.
    pub fn begin<D: Disk>(
        alloc: Global,
        disk: &mut D,
        generation: u64,
        most: u64,
    ) -> Result<Build, LogFault>
        requires generation { generation < NUMBERS }
        requires most { most ≤ LAST_END }
        ensures build { IfOk result (λ build. build ≡ record {
          format = Format.Two generation;
          end = length (front (Format.Two generation));
          most = most;
          waiting = [];
        }) }
        ensures begun { IfOk result
            (λ build. IsTrue D.tells → HasBuilt [] build (D.view disk.new)) }

        // A crash at any moment of the call leaves what one could leave before, or bytes that are picked of no pair.
        ensures moments { IsTrue D.tells
            → LeavesOnly (IsFormerOrIdle (D.view disk.old)) (D.view disk.old) (D.view disk.new) }

        ensures steady { OnOk result ((D.view disk.new).faults ≡ (D.view disk.old).faults) }
        ensures disk { result ≡ Err LogFault.Disk
            → Rose (D.view disk.old).faults (D.view disk.new).faults }
        ensures counts { (D.view disk.old).faults ≤ (D.view disk.new).faults }
        ensures memory { result ≡ Err LogFault.Memory → disk.new ≡ disk.old }
        ensures no_full { (e : ℕ) → result ≡ Err (LogFault.Full e) → ⊥ }
        ensures no_bad_log { (p : ℕ) → result ≡ Err (LogFault.BadLog p) → ⊥ }
    {
        let Ok(mut room) = front_behind(alloc, generation) else {
            return Err(LogFault::Memory);
        };
        let format = Format::Two(generation);
        clear(disk)?;
        lay_front(disk, format, &room)?;
        room.clear();
        Ok(Build {
            format,
            end: SECOND_FRONT_LEN as u64,
            most,
            room,
        })
    }

    /// Adds a body, and answers its place. It isn't durable before `finish`, and may wait until then. At `Disk` the build is to be
    /// given up.
    pub fn add<D: Disk>(&mut self, disk: &mut D, body: &[u8]) -> Result<u64, LogFault>
        requires on { IsTrue D.tells → IsBuiltOn (D.view disk.old) self.old }
        requires short { length body.now < BODY_LENGTHS }

        ensures place { IfOk result (λ place. place ≡ self.old.end) }
        ensures build { OnOk result (self.new ≡ record self.old {
          end = self.old.end + BEFORE_BODY + length body.now;
          waiting = self.new.waiting;
        }) }
        ensures added { OnOk result (IsTrue D.tells → (bodies : List (List ℕ))
            → HasBuilt bodies self.old (D.view disk.old)
            → HasBuilt (bodies ++ body.now ∷ []) self.new (D.view disk.new)) }
        ensures on { OnOk result (IsTrue D.tells → IsBuiltOn (D.view disk.new) self.new) }

        // A crash at any moment of the call leaves the first gate closed.
        ensures moments { IsTrue D.tells → LeavesOnly IsClosed (D.view disk.old) (D.view disk.new) }

        ensures steady { OnOk result ((D.view disk.new).faults ≡ (D.view disk.old).faults) }
        ensures disk { result ≡ Err LogFault.Disk
            → Rose (D.view disk.old).faults (D.view disk.new).faults }
        ensures counts { (D.view disk.old).faults ≤ (D.view disk.new).faults }
        ensures full { (e : ℕ) → (result ≡ Err (LogFault.Full e))
            ↔ ((e ≡ self.old.end + AROUND_BODY + length body.now) × (self.old.most < e)) }
        ensures untouched { OnErr result
            ((result ≡ Err LogFault.Disk → ⊥) → (self.new ≡ self.old) × (disk.new ≡ disk.old)) }
        ensures no_bad_log { (p : ℕ) → result ≡ Err (LogFault.BadLog p) → ⊥ }
    {
        let gate = self.end;
        let end = gate + (body.len() + BEFORE_BODY) as u64;
        if end + 1 > self.most {
            return Err(LogFault::Full(end + 1));
        }
        let Ok(()) = self.hold(body) else {
            return Err(LogFault::Memory);
        };
        if self.room.len() < GATHERED {
            return Ok(gate);
        }
        self.write_waiting(disk)?;
        Ok(gate)
    }

    /// Makes what was built durable, and opens its gate. It takes no memory.
    pub fn finish<D: Disk>(self, disk: &mut D) -> Result<Log, LogFault>
        requires { IsTrue D.tells → IsBuiltOn (D.view disk.old) self }
        ensures log { IfOk result (λ log. log ≡ record {
          format = self.format;
          end = self.end;
          most = self.most;
          spare = 0;
          is_open = true;
        }) }
        ensures holds { IfOk result (λ log. IsTrue D.tells → (bodies : List (List ℕ))
            → HasBuilt bodies self (D.view disk.old) → HoldsBodies bodies log (D.view disk.new)) }
        ensures on { IfOk result (λ log. IsTrue D.tells → IsOn (D.view disk.new) log) }
        ensures synced { OnOk result (IsTrue D.tells → IsSynced (D.view disk.new)) }

        // A crash at any moment of the call leaves the first gate closed, or the whole log.
        ensures moments { IsTrue D.tells → (bodies : List (List ℕ))
            → HasBuilt bodies self (D.view disk.old)
            → LeavesOnly (IsClosedOrMade self.format bodies) (D.view disk.old) (D.view disk.new) }

        ensures steady { OnOk result ((D.view disk.new).faults ≡ (D.view disk.old).faults) }
        ensures disk { OnErr result ((result ≡ Err LogFault.Disk)
            × Rose (D.view disk.old).faults (D.view disk.new).faults) }
        ensures counts { (D.view disk.old).faults ≤ (D.view disk.new).faults }
    {
        let mut build = self;
        build.write_waiting(disk)?;
        open_gate(disk, build.format)?;
        Ok(Log::of_parts(build.format, build.end, build.most, build.room))
    }

    // Lets a record wait.
    fn hold(&mut self, body: &[u8]) -> Result<(), Memory>
        requires short { length body.now < BODY_LENGTHS }
        requires fits { self.old.end + AROUND_BODY + length body.now ≤ self.old.most }
        ensures held { OnOk result (self.new ≡ record self.old {
          end = self.old.end + BEFORE_BODY + length body.now;
          waiting = self.old.waiting ++ 1 ∷ length_prefixed body.now;
        }) }
        ensures untouched { OnErr result (self.new ≡ self.old) }
    {
        put_open_record(&mut self.room, body)?;
        self.end += (body.len() + BEFORE_BODY) as u64;
        Ok(())
    }

    // Writes what waits, and the closed gate behind it.
    fn write_waiting<D: Disk>(&mut self, disk: &mut D) -> Result<(), Failed>
        requires { IsTrue D.tells → IsBuiltOn (D.view disk.old) self.old }
        ensures build { OnOk result (self.new ≡ record self.old { waiting = [] }) }
        ensures written { OnOk result
            (IsTrue D.tells → (bodies : List (List ℕ)) → HasBuilt bodies self.old (D.view disk.old)
            → HasBuilt bodies self.new (D.view disk.new)) }
        ensures moments { IsTrue D.tells → LeavesOnly IsClosed (D.view disk.old) (D.view disk.new) }
        ensures steady { OnOk result ((D.view disk.new).faults ≡ (D.view disk.old).faults) }
        ensures failed { OnErr result (Rose (D.view disk.old).faults (D.view disk.new).faults) }
        ensures counts { (D.view disk.old).faults ≤ (D.view disk.new).faults }
    {
        if self.room.is_empty() {
            return Ok(());
        }
        let place = self.end - self.room.len() as u64;
        let _ = self.room.push(0);
        let answer = disk.write_at(place, &self.room);
        self.room.clear();
        answer
    }
}
