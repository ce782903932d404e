//! Reading a body of a log again.

ghost use Rattle.std.specs.Prelude.{◌≡◌, ◌≤◌, ◌<◌, ◌+◌, ◌^◌, ◌++◌, ◌∷◌, ℕ, List, length, Err, IsTrue, IfOk, OnOk, OnErr};
ghost use Rattle.at_cid.specs.Counts.{Rose};
ghost use Rattle.relay_disk.specs.Disk.{Goes, Same};
ghost use Rattle.gate_log.specs.Image.{made};
ghost use Rattle.gate_log.specs.Log.{HoldsBodies as HasBodies, IsOn};
ghost use Rattle.gate_log.specs.declared.fault.LogFault.{LogFault};
ghost use Rattle.gate_log.specs.declared.limits.TheConstants.{BEFORE_BODY};
ghost use Rattle.row_codec.specs.Bodies.{IsBody, rows_body};
ghost use Rattle.relay_row.specs.declared.row.Row.{Row as TheRow};
ghost use Rattle.relay_store.specs.Journals.{bytes_of};

use gate_log::{Log, LogFault};
use relay_disk::Disk;

/// Puts the body at this place into a room, and answers the place of the next one.
pub fn read_body<D: Disk>(
    log: &Log,
    disk: &mut D,
    place: u64,
    room: &mut Vec<u8>,
) -> Result<u64, LogFault>
    requires on { IsTrue D.tells → IsOn (D.view disk.old) log.now }
    ensures next { IfOk result (λ next. (place < next) × (next ≤ log.now.end)) }
    ensures short { OnOk result (length room.new.items < 2 ^ 32) }
    ensures body { IfOk result (λ next. IsTrue D.tells
        → (before : List (List TheRow)) (there : List TheRow) (after : List (List TheRow))
        → IsBody there (rows_body there)
        → HasBodies (bytes_of (before ++ there ∷ after)) log.now (D.view disk.old)
        → place ≡ length (made log.now.format (bytes_of before))
        → IsBody there room.new.items × (next ≡ place + BEFORE_BODY + length (rows_body there))) }
    ensures no_bad_log { (p : ℕ) → result ≡ Err (LogFault.BadLog p) → IsTrue D.tells
        → (before : List (List TheRow)) (there : List TheRow) (after : List (List TheRow))
        → HasBodies (bytes_of (before ++ there ∷ after)) log.now (D.view disk.old)
        → place ≡ length (made log.now.format (bytes_of before)) → ⊥ }
    ensures no_full { (e : ℕ) → result ≡ Err (LogFault.Full e) → ⊥ }
    ensures goes { Goes Same (D.view disk.old) (D.view disk.new) }
    ensures holds { IsTrue D.tells → (bodies : List (List ℕ))
        → HasBodies bodies log.now (D.view disk.old) → HasBodies bodies log.now (D.view disk.new) }
    ensures on { IsTrue D.tells → IsOn (D.view disk.new) log.now }
    ensures steady { OnOk result ((D.view disk.new).faults ≡ (D.view disk.old).faults) }
    ensures no_fault { OnErr result ((result ≡ Err LogFault.Disk → ⊥)
        → (D.view disk.new).faults ≡ (D.view disk.old).faults) }
    ensures disk { result ≡ Err LogFault.Disk
        → Rose (D.view disk.old).faults (D.view disk.new).faults }
{
    if place >= log.end() {
        return Err(LogFault::BadLog(place));
    }
    log.read_into(disk, place, room)
}
