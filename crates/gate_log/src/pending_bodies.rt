//! Putting a body together in the room from which it is written, so that it isn't copied there.
ghost use Rattle.std.specs.Prelude.{◌≡◌, ◌≤◌, ◌<◌, ◌+◌, ◌++◌, ◌∷◌, [], List, ℕ, length, drop, IsTrue, OnOk, OnErr};
ghost use Rattle.at_cid.specs.Counts.{Rose};
ghost use Rattle.relay_disk.specs.Moments.{LeavesOnly};
ghost use Rattle.relay_disk.specs.declared.disk.TheConstants.{SIZES};
ghost use Rattle.at_cid.specs.Lengths.{length_prefixed};
ghost use Rattle.gate_log.specs.Crash.{Stands, IsBeforeOrAfter};
ghost use Rattle.gate_log.specs.PendingBodies.{body_in};
ghost use Rattle.gate_log.specs.declared.limits.TheConstants.{BEFORE_BODY, BODY_LENGTHS};

use crate::Format;
use crate::limits::LENGTH_LEN;
use crate::steps::{add_record, add_record_apart};
use at_cid::{Memory, Octets};
use relay_disk::{Disk, Failed};

/// The most bytes of a head, which stands in front of what was put into a room and may be known after it.
pub const HEAD: usize = 2;

/// The bytes that a room has in front of what is put into it: for the length of the body and for its head.
pub const AHEAD: usize = LENGTH_LEN + HEAD;

/// Clears a room, so that a body can be put into it by what adds bytes at its end.
pub fn begin(room: &mut Octets) -> Result<(), Memory>
    ensures begun { OnOk result ((length room.new ≡ AHEAD) × (body_in [] room.new ≡ [])) }
    ensures err { OnErr result (room.new ≡ []) }
{
    room.clear();
    room.extend(&[0; AHEAD])
}

/// Writes the length and the head in front of the body in a room, and answers where they begin.
pub fn lay_ahead(head: &[u8], room: &mut Octets) -> usize
    requires begun { AHEAD ≤ length room.old }
    requires head { length head.now ≤ HEAD }
    requires short { length (body_in head.now room.old) < BODY_LENGTHS }
    ensures laid { drop result room.new ≡ length_prefixed (body_in head.now room.old) }
    ensures within { result ≤ length room.new }
    ensures same { length room.new ≡ length room.old }
{
    let len = head.len() + room.len() - AHEAD;
    let start = HEAD - head.len();
    room.overwrite(start, &(len as u32).to_be_bytes());
    room.overwrite(start + LENGTH_LEN, head);
    start
}

/// Adds the record that stands in a room but for its gate and for the closed gate behind it. Where there is no
/// memory for that in the room, it is written apart.
pub fn add_from_room<D: Disk>(
    disk: &mut D,
    format: Format,
    gate: u64,
    room: &mut Octets,
    start: usize,
) -> Result<(), Failed>
    requires stands { IsTrue D.tells
        → (bodies : List (List ℕ)) × Stands format bodies gate (D.view disk.old) }
    requires below { gate + 2 + length room.old < SIZES }
    requires within { start ≤ length room.old }
    ensures added { OnOk result (IsTrue D.tells → (bodies : List (List ℕ)) (body : List ℕ)
        → drop start room.old ≡ length_prefixed body → length body < BODY_LENGTHS
        → Stands format bodies gate (D.view disk.old) → Stands format
        (bodies ++ body ∷ []) (gate + BEFORE_BODY + length body) (D.view disk.new)) }
    ensures moments { IsTrue D.tells → (bodies : List (List ℕ)) (body : List ℕ)
        → drop start room.old ≡ length_prefixed body → length body < BODY_LENGTHS
        → Stands format bodies gate (D.view disk.old)
        → LeavesOnly (IsBeforeOrAfter format bodies body) (D.view disk.old) (D.view disk.new) }
    ensures steady { OnOk result ((D.view disk.new).faults ≡ (D.view disk.old).faults) }
    ensures failed { OnErr result (Rose (D.view disk.old).faults (D.view disk.new).faults) }
    ensures counts { (D.view disk.old).faults ≤ (D.view disk.new).faults }
{
    match room.push(0) {
        Ok(()) => add_record(disk, format, gate, &room.as_slice()[start..]),
        Err(Memory) => add_record_apart(disk, format, gate, &room.as_slice()[start..]),
    }
}
