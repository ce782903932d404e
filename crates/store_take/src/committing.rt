//! Making the rows under way durable.

ghost use Rattle.std.specs.Prelude.{◌≡◌, ◌≤◌, ◌++◌, [], false, List, IsTrue, OnOk, OnErr};
ghost use Rattle.at_cid.specs.Counts.{Rose};
ghost use Rattle.relay_disk.specs.Moments.{LeavesOnly};
ghost use Rattle.gate_log.specs.Log.{IsOn};
ghost use Rattle.event_window.specs.declared.place.Place.{Place as ThePlace};
ghost use Rattle.relay_row.specs.declared.limits.TheConstants.{MOST_ROWS};
ghost use Rattle.relay_row.specs.declared.row.Row.{Row as TheRow};
ghost use Rattle.relay_core.specs.declared.journal_state.Core.{Core as TheCore};
ghost use Rattle.relay_store.specs.PendingBodies.{Fits, HasRows, IsAhead, behind_pending};
ghost use Rattle.relay_store.specs.Journals.{IsOneOf};
ghost use Rattle.relay_store.specs.declared.fault.StoreFault.{StoreFault as TheFault};

use gate_log::Log;
use relay_disk::Disk;
use relay_store::{Pending, StoreFault, list_front, list_front_len};

/// Appends the pending batch, if it has rows. It takes no memory.
pub(crate) fn commit<D: Disk>(
    log: &mut Log,
    disk: &mut D,
    pending: &mut Pending,
) -> Result<(), StoreFault>
    requires open { IsTrue log.old.is_open }
    requires on { IsTrue D.tells → IsOn (D.view disk.old) log.old }
    requires rows { (rows : List TheRow) × HasRows rows pending.old }
    requires few { pending.old.count ≤ MOST_ROWS }
    requires fits { Fits log.old pending.old }

    // The disk holds the rows more that were known ahead of it.
    ensures added { OnOk result (IsTrue D.tells
        → (J rows : List TheRow) (core : TheCore) (window : List ThePlace)
        → HasRows rows pending.old
        → IsAhead J rows log.old core window (D.view disk.old)
        → IsAhead (J ++ rows) [] log.new core window (D.view disk.new)) }
    ensures moments { IsTrue D.tells → (J rows : List TheRow) (core : TheCore)
        (window : List ThePlace) → HasRows rows pending.old
        → IsAhead J rows log.old core window (D.view disk.old)
        → LeavesOnly (IsOneOf log.old.format J rows) (D.view disk.old) (D.view disk.new) }
    ensures end { OnOk result (log.new.end ≡ behind_pending log.old.end pending.old) }
    ensures format { (log.new.format ≡ log.old.format) × (log.new.most ≡ log.old.most) }
    ensures untouched { pending.old.count ≡ 0 → (log.new ≡ log.old) × (disk.new ≡ disk.old) }
    ensures open { OnOk result (IsTrue log.new.is_open) }
    ensures disk { OnErr result ((result ≡ Err StoreFault.Disk)
        × ((log.new.is_open ≡ false) × Rose (D.view disk.old).faults (D.view disk.new).faults)) }
    ensures counts { (D.view disk.old).faults ≤ (D.view disk.new).faults }
    ensures steady { OnOk result ((D.view disk.new).faults ≡ (D.view disk.old).faults) }
{
    if pending.count == 0 {
        return Ok(());
    }
    let front = list_front(pending.count);
    let head = &front[..list_front_len(pending.count)];
    match log.append_put(disk, head, &mut pending.body) {
        Ok(_) => Ok(()),
        Err(_) => Err(StoreFault::Disk),
    }
}
