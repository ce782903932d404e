//! Why events were not given.

ghost use Rattle.std.specs.Prelude.{◌≡◌};

use at_cid::Memory;
use thiserror::Error;

/// Why events were not given.
#[derive(Clone, Copy, Debug, PartialEq, Eq, Error)]
pub enum EventsFault {
    /// The disk failed, as its count of faults shows.
    #[error("the disk failed")]
    Disk,
    /// Memory ran out.
    #[error("out of memory")]
    Memory,
    /// No event stands at this place, where one did.
    #[error("no event at byte {0}")]
    BadLog(u64),
}

impl From<Memory> for EventsFault {
    ghost use Rattle.event_window.specs.declared.fault.EventsFault.{EventsFault};

    ghost from_gives = { λ _ e. e ≡ EventsFault.Memory };

    fn from(_e: Memory) -> EventsFault {
        EventsFault::Memory
    }
}
