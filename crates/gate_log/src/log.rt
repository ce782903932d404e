//! The log itself: its end on the disk, and the room in which records are put together.
ghost use Rattle.std.specs.Prelude.{◌≡◌, ◌≤◌, ◌<◌, ◌+◌, ◌^◌, ◌↔◌, ◌++◌, ◌∷◌, [], List, ℕ, false, true, max, length, vec_capacity, IsTrue, IfOk, OnOk, OnErr};
ghost use Rattle.at_cid.specs.Counts.{Rose};
ghost use Rattle.relay_disk.specs.Disk.{Goes, Same, IsSynced};
ghost use Rattle.relay_disk.specs.Moments.{LeavesOnly};
ghost use Rattle.relay_disk.specs.declared.disk.TheConstants.{SIZES};
ghost use Rattle.gate_log.specs.Image.{generation, IsImage, IsUnmade, IsBadAt};
ghost use Rattle.at_cid.specs.Lengths.{length_prefixed};
ghost use Rattle.gate_log.specs.Crash.{IsImageOfOne, IsBeforeOrAfter, IsNew, LeavesImages, LeavesNew};
ghost use Rattle.gate_log.specs.Log.{HoldsBodies, IsOn, place_behind};
ghost use Rattle.gate_log.specs.PendingBodies.{body_in};
ghost use Rattle.gate_log.specs.declared.limits.TheConstants.{BODY_LENGTHS, LAST_END};

use crate::bodies::{read_body, read_length};
use crate::ending::find_or_make;
use crate::limits::{AROUND_BODY, BEFORE_BODY};
use crate::pending_bodies::{AHEAD, HEAD, add_from_room, lay_ahead};
use crate::steps::add_record;
use crate::{Format, LogFault};
use at_cid::{Memory, Octets};
use relay_disk::Disk;
use std::alloc::Global;
use std::marker::Model;

/// A log on a disk, which is handed to each call.
///
/// A log is a front and records. A record is a gate, four bytes of body length, the highest first, and the
/// body. A gate is open exactly where it is 1, and the records are those up to the first closed gate.
#[derive(Drop)]
pub struct Log {
    format: Format,
    end: u64,
    most: u64,
    spare: u64,
    is_open: bool,
    room: Vec<u8>,
}

impl Model for Log {
    ghost use Rattle.std.specs.Prelude.{◌≤◌, ◌<◌, ◌+◌, vec_capacity};
    ghost use Rattle.relay_disk.specs.declared.disk.TheConstants.{SIZES};
    ghost use Rattle.gate_log.specs.declared.limits.TheConstants.{BEFORE_BODY, LAST_END};
    ghost use Rattle.gate_log.specs.Log.{LogState};

    ghost Value = { LogState };

    ghost view = { λ l. record { format = l.format; end = l.end; most = l.most; spare = l.spare; is_open = l.is_open } };

    ghost invariant = { λ l. (l.spare + BEFORE_BODY ≤ vec_capacity l.room) × (l.end < SIZES) × (l.most ≤ LAST_END) };
}

// Puts a record together in room that is there: with the closed gate behind it, in place of its own.
fn put_record(room: &mut Vec<u8>, body: &[u8])
    requires room { length body.now + BEFORE_BODY ≤ vec_capacity room.old }
    requires short { length body.now < BODY_LENGTHS }
    ensures record { room.new.items ≡ length_prefixed body.now ++ 0 ∷ [] }
    ensures capacity { vec_capacity room.old ≤ vec_capacity room.new }
{
    room.clear();
    let _ = room.extend_from_slice(&(body.len() as u32).to_be_bytes());
    let _ = room.extend_from_slice(body);
    let _ = room.push(0);
}

impl Log {
    /// Opens the log of a disk, which is made where it is unmade. No record is to end past `most`, which is in
    /// bytes.
    pub fn open<D: Disk>(alloc: Global, disk: &mut D, most: u64) -> Result<Log, LogFault>
        requires { most ≤ LAST_END }
        ensures log { IfOk result (λ log. (log.most ≡ most) × IsTrue log.is_open) }

        // Its bodies are those of the disk.
        ensures holds { IfOk result (λ log. IsTrue D.tells → (bodies : List (List ℕ))
            × IsImage bodies (D.view disk.old).content × HoldsBodies bodies log (D.view disk.new)) }

        ensures on { IfOk result (λ log. IsTrue D.tells → IsOn (D.view disk.new) log) }

        // A crash at any moment of the call leaves an image of one of the lists that one before could leave.
        ensures moments { IsTrue D.tells → LeavesImages (D.view disk.old)
            → LeavesOnly (IsImageOfOne (D.view disk.old)) (D.view disk.old) (D.view disk.new) }

        // Only an unmade disk is written, and a crash on the way leaves a log without bodies.
        ensures reads { IsTrue D.tells → (IsUnmade (D.view disk.old).content → ⊥)
            → Goes Same (D.view disk.old) (D.view disk.new) }
        ensures makes { IsTrue D.tells → IsUnmade (D.view disk.old).content
            → LeavesNew (D.view disk.old) → LeavesOnly IsNew (D.view disk.old) (D.view disk.new) }

        ensures made { IfOk result
            (λ log. IsTrue D.tells → IsUnmade (D.view disk.old).content → log.format ≡ Format.One) }

        ensures synced { OnOk result (IsTrue D.tells → IsSynced (D.view disk.new)) }
        ensures later { (D.view disk.old).moment ≤ (D.view disk.new).moment }
        ensures bad_log { (p : ℕ) → result ≡ Err (LogFault.BadLog p)
            → IsTrue D.tells → IsBadAt p (D.view disk.old).content }
        ensures steady { OnOk result ((D.view disk.new).faults ≡ (D.view disk.old).faults) }
        ensures no_fault { OnErr result ((result ≡ Err LogFault.Disk → ⊥)
            → (D.view disk.new).faults ≡ (D.view disk.old).faults) }
        ensures disk { result ≡ Err LogFault.Disk
            → Rose (D.view disk.old).faults (D.view disk.new).faults }
        ensures counts { (D.view disk.old).faults ≤ (D.view disk.new).faults }
        ensures memory { result ≡ Err LogFault.Memory → disk.new ≡ disk.old }
        ensures no_full { (e : ℕ) → result ≡ Err (LogFault.Full e) → ⊥ }
    {
        let mut room = Vec::new(alloc);
        if room.reserve(BEFORE_BODY).is_err() {
            return Err(LogFault::Memory);
        }
        let ending = find_or_make(disk)?;
        Ok(Log {
            format: ending.format,
            end: ending.end,
            most,
            spare: 0,
            is_open: true,
            room,
        })
    }

    // The log of these parts, on a disk that holds it.
    pub(crate) fn of_parts(format: Format, end: u64, most: u64, room: Vec<u8>) -> Log
        requires room { BEFORE_BODY ≤ vec_capacity room }
        requires end { end < SIZES }
        requires most { most ≤ LAST_END }
        ensures { result
            ≡ record { format = format; end = end; most = most; spare = 0; is_open = true } }
    {
        Log {
            format,
            end,
            most,
            spare: 0,
            is_open: true,
            room,
        }
    }

    /// Makes room for a body of so many bytes.
    pub fn reserve(&mut self, len: u32) -> Result<(), Memory>
        ensures ok { OnOk result (self.new ≡ record self.old { spare = max self.old.spare len }) }
        ensures err { OnErr result (self.new ≡ self.old) }
        ensures same { self.new ≡ record self.old { spare = self.new.spare } }
    {
        let len = len as u64;
        if len <= self.spare {
            return Ok(());
        }
        let more = len as usize + BEFORE_BODY;
        self.room.clear();
        self.room.reserve(more)?;
        self.spare = len;
        Ok(())
    }

    /// The length of the longest body for which there is room. An append leaves it as it is.
    pub fn spare(&self) -> u64
        ensures { result ≡ self.now.spare }
    {
        self.spare
    }

    /// The place of the first record's gate.
    pub fn first(&self) -> u64
        ensures { result ≡ place_behind self.now [] }
    {
        self.format.first()
    }

    /// The place of the closed gate behind the records, where the next one goes.
    pub fn end(&self) -> u64
        ensures end { result ≡ self.now.end }
        ensures below { result < SIZES }
    {
        self.end
    }

    /// No record ends past this place.
    pub fn most(&self) -> u64
        ensures most { result ≡ self.now.most }
        ensures below { result ≤ LAST_END }
    {
        self.most
    }

    /// Whether a body of so many bytes can be added. If it can't, this is what `append` answers.
    pub fn fits(&self, len: u32) -> Result<(), LogFault>
        ensures full { (e : ℕ) → (result ≡ Err (LogFault.Full e))
            ↔ ((e ≡ self.now.end + AROUND_BODY + len) × (self.now.most < e)) }
        ensures ok { OnOk result (self.now.end + AROUND_BODY + len ≤ self.now.most) }
        ensures no_disk { result ≡ Err LogFault.Disk → ⊥ }
        ensures no_bad_log { (p : ℕ) → result ≡ Err (LogFault.BadLog p) → ⊥ }
        ensures no_memory { result ≡ Err LogFault.Memory → ⊥ }
    {
        let end = self.end + AROUND_BODY as u64 + len as u64;
        if end > self.most {
            return Err(LogFault::Full(end));
        }
        Ok(())
    }

    /// The generation, which is 0 in the first format.
    pub fn generation(&self) -> u64
        ensures { result ≡ generation self.now.format }
    {
        self.format.generation()
    }

    /// Whether no append has answered `Disk` since it was opened, and it wasn't closed.
    pub fn is_open(&self) -> bool
        ensures { result ≡ self.now.is_open }
    {
        self.is_open
    }

    /// Closes the log: no body can be added until it is opened again.
    pub fn close(&mut self)
        ensures { self.new ≡ record self.old { is_open = false } }
    {
        self.is_open = false;
    }

    /// Adds a body, and answers its place. At `Ok` it is durable. At `Disk` the log is closed, and the disk has to
    /// be opened again. It takes no memory: the record is put together in the reserved room.
    pub fn append<D: Disk>(&mut self, disk: &mut D, body: &[u8]) -> Result<u64, LogFault>
        requires open { IsTrue self.old.is_open }
        requires on { IsTrue D.tells → IsOn (D.view disk.old) self.old }
        requires short { length body.now < BODY_LENGTHS }
        requires room { length body.now ≤ self.old.spare }

        ensures place { IfOk result (λ place. place ≡ self.old.end) }
        ensures log { OnOk result
            (self.new ≡ record self.old { end = self.old.end + BEFORE_BODY + length body.now }) }
        ensures added { OnOk result (IsTrue D.tells → (bodies : List (List ℕ))
            → HoldsBodies bodies self.old (D.view disk.old)
            → HoldsBodies (bodies ++ body.now ∷ []) self.new (D.view disk.new)) }

        ensures on { OnOk result (IsTrue D.tells → IsOn (D.view disk.new) self.new) }

        // A crash at any moment of the call leaves the bodies, with the new one or without.
        ensures moments { IsTrue D.tells → (bodies : List (List ℕ))
            → HoldsBodies bodies self.old (D.view disk.old)
            → LeavesOnly (IsBeforeOrAfter self.old.format bodies body.now)
            (D.view disk.old) (D.view disk.new) }

        ensures steady { OnOk result ((D.view disk.new).faults ≡ (D.view disk.old).faults) }
        ensures disk { result ≡ Err LogFault.Disk
            → Rose (D.view disk.old).faults (D.view disk.new).faults
            × (self.new ≡ record self.old { is_open = false }) }
        ensures counts { (D.view disk.old).faults ≤ (D.view disk.new).faults }
        ensures full { (e : ℕ) → (result ≡ Err (LogFault.Full e))
            ↔ ((e ≡ self.old.end + AROUND_BODY + length body.now) × (self.old.most < e)) }
        ensures untouched { (e : ℕ) → result ≡ Err (LogFault.Full e)
            → (self.new ≡ self.old) × (disk.new ≡ disk.old) }
        ensures no_bad_log { (p : ℕ) → result ≡ Err (LogFault.BadLog p) → ⊥ }
        ensures no_memory { result ≡ Err LogFault.Memory → ⊥ }
    {
        self.fits(body.len() as u32)?;
        let gate = self.end;
        let end = gate + (body.len() + BEFORE_BODY) as u64;
        put_record(&mut self.room, body);
        match add_record(disk, self.format, gate, &self.room) {
            Ok(()) => {
                self.end = end;
                Ok(gate)
            }
            Err(_) => {
                self.is_open = false;
                Err(LogFault::Disk)
            }
        }
    }

    /// Adds a body that was put together in a room, behind `AHEAD` bytes, and has this head in front. It is as if
    /// `append` were given that body, but that it is written from where it stands. The room is empty afterwards,
    /// unless the log is full.
    pub fn append_put<D: Disk>(
        &mut self,
        disk: &mut D,
        head: &[u8],
        room: &mut Octets,
    ) -> Result<u64, LogFault>
        requires open { IsTrue self.old.is_open }
        requires on { IsTrue D.tells → IsOn (D.view disk.old) self.old }
        requires begun { AHEAD ≤ length room.old }
        requires head { length head.now ≤ HEAD }
        requires short { length (body_in head.now room.old) < BODY_LENGTHS }

        ensures place { IfOk result (λ place. place ≡ self.old.end) }
        ensures log { OnOk result (self.new ≡ record self.old {
          end = self.old.end + BEFORE_BODY + length (body_in head.now room.old);
        }) }
        ensures added { OnOk result (IsTrue D.tells → (bodies : List (List ℕ))
            → HoldsBodies bodies self.old (D.view disk.old)
            → HoldsBodies (bodies ++ body_in head.now room.old ∷ []) self.new (D.view disk.new)) }

        ensures on { OnOk result (IsTrue D.tells → IsOn (D.view disk.new) self.new) }

        // A crash at any moment of the call leaves the bodies, with the new one or without.
        ensures moments { IsTrue D.tells → (bodies : List (List ℕ))
            → HoldsBodies bodies self.old (D.view disk.old)
            → LeavesOnly (IsBeforeOrAfter self.old.format bodies (body_in head.now room.old))
            (D.view disk.old) (D.view disk.new) }

        ensures steady { OnOk result ((D.view disk.new).faults ≡ (D.view disk.old).faults) }
        ensures disk { result ≡ Err LogFault.Disk
            → Rose (D.view disk.old).faults (D.view disk.new).faults
            × (self.new ≡ record self.old { is_open = false }) }
        ensures counts { (D.view disk.old).faults ≤ (D.view disk.new).faults }
        ensures full { (e : ℕ) → (result ≡ Err (LogFault.Full e))
            ↔ ((e ≡ self.old.end + AROUND_BODY + length (body_in head.now room.old))
            × (self.old.most < e)) }
        ensures untouched { (e : ℕ) → result ≡ Err (LogFault.Full e)
            → (self.new ≡ self.old) × (disk.new ≡ disk.old) × (room.new ≡ room.old) }
        ensures used { OnOk result (room.new ≡ []) }
        ensures dropped { result ≡ Err LogFault.Disk → room.new ≡ [] }
        ensures no_bad_log { (p : ℕ) → result ≡ Err (LogFault.BadLog p) → ⊥ }
        ensures no_memory { result ≡ Err LogFault.Memory → ⊥ }
    {
        let len = head.len() + room.len() - AHEAD;
        self.fits(len as u32)?;
        let gate = self.end;
        let end = gate + (len + BEFORE_BODY) as u64;
        let start = lay_ahead(head, room);
        match add_from_room(disk, self.format, gate, room, start) {
            Ok(()) => {
                room.clear();
                self.end = end;
                Ok(gate)
            }
            Err(_) => {
                room.clear();
                self.is_open = false;
                Err(LogFault::Disk)
            }
        }
    }

    /// Puts the body at the place of its gate into a room, in place of what is there, and answers the place of the next gate. Where
    /// no body stands at the place, it answers `BadLog` with the place, or puts a body there of which nothing is said; after a
    /// fault nothing is said of the room.
    pub fn read_into<D: Disk>(
        &self,
        disk: &mut D,
        place: u64,
        room: &mut Vec<u8>,
    ) -> Result<u64, LogFault>
        requires on { IsTrue D.tells → IsOn (D.view disk.old) self.now }
        requires below { place < self.now.end }

        // At the place of a body it puts this body there.
        ensures body { IfOk result (λ next. IsTrue D.tells
            → (before : List (List ℕ)) (body : List ℕ) (after : List (List ℕ))
            → HoldsBodies (before ++ body ∷ after) self.now (D.view disk.old)
            → place ≡ place_behind self.now before
            → (room.new.items ≡ body) × (next ≡ place + BEFORE_BODY + length body)) }
        ensures next { IfOk result (λ next. (place < next) × (next ≤ self.now.end)) }
        ensures short { OnOk result (length room.new.items < 2 ^ 32) }
        ensures bad_log { (p : ℕ) → result ≡ Err (LogFault.BadLog p) → IsTrue D.tells
            → (before : List (List ℕ)) (body : List ℕ) (after : List (List ℕ))
            → HoldsBodies (before ++ body ∷ after) self.now (D.view disk.old)
            → place ≡ place_behind self.now before → ⊥ }
        ensures bad_place { (p : ℕ) → result ≡ Err (LogFault.BadLog p) → p ≡ place }

        // Whatever it answers, the disk holds the bodies that it held.
        ensures goes { Goes Same (D.view disk.old) (D.view disk.new) }
        ensures holds { IsTrue D.tells → (bodies : List (List ℕ))
            → HoldsBodies bodies self.now (D.view disk.old)
            → HoldsBodies bodies self.now (D.view disk.new) }
        ensures on { IsTrue D.tells → IsOn (D.view disk.new) self.now }

        ensures steady { OnOk result ((D.view disk.new).faults ≡ (D.view disk.old).faults) }
        ensures no_fault { OnErr result ((result ≡ Err LogFault.Disk → ⊥)
            → (D.view disk.new).faults ≡ (D.view disk.old).faults) }
        ensures disk { result ≡ Err LogFault.Disk
            → Rose (D.view disk.old).faults (D.view disk.new).faults }
        ensures no_full { (e : ℕ) → result ≡ Err (LogFault.Full e) → ⊥ }
    {
        if self.end - place < BEFORE_BODY as u64 {
            return Err(LogFault::BadLog(place));
        }
        let Some(len) = read_length(disk, place)? else {
            return Err(LogFault::BadLog(place));
        };
        let next = place + BEFORE_BODY as u64 + len as u64;
        if next > self.end {
            return Err(LogFault::BadLog(place));
        }
        read_body(disk, place + BEFORE_BODY as u64, len as usize, room)?;
        Ok(next)
    }
}
