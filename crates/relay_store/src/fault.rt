//! Why a call of the store failed.

ghost use Rattle.std.specs.Prelude.{◌≡◌};

use at_cid::Memory;
use gate_log::LogFault;
use thiserror::Error;

/// Why a call of the store failed.
#[derive(Clone, Copy, Debug, PartialEq, Eq, Error)]
pub enum StoreFault {
    /// The disk failed, as its count of faults shows.
    #[error("the disk failed")]
    Disk,
    /// The disks are no image of a journal, and show it at this place.
    #[error("no journal at byte {0}")]
    BadLog(u64),
    /// A row has no room in the log: as a body of its own behind the rows so far it would end at this place.
    #[error("the log is full at byte {0}")]
    Full(u64),
    /// The last number was given, and another one is wanted.
    #[error("the numbers have ended")]
    SeqEnd,
    /// No authority of the account's method is left.
    #[error("no authority is left")]
    Authority,
    /// A repository couldn't be read.
    #[error("a repository couldn't be read")]
    Repos,
    /// Memory ran out.
    #[error("out of memory")]
    Memory,
    /// The clock failed.
    #[error("the clock failed")]
    Clock,
}

impl StoreFault {
    ghost use Rattle.relay_store.specs.Faults.{number_of};

    /// The number of the fault, from 1 to 8.
    pub fn number(&self) -> u8
        ensures { result ≡ number_of self.now }
    {
        match self {
            StoreFault::Disk => 1,
            StoreFault::BadLog(_) => 2,
            StoreFault::Full(_) => 3,
            StoreFault::SeqEnd => 4,
            StoreFault::Authority => 5,
            StoreFault::Repos => 6,
            StoreFault::Memory => 7,
            StoreFault::Clock => 8,
        }
    }
}

impl From<Memory> for StoreFault {
    ghost use Rattle.relay_store.specs.declared.fault.StoreFault.{StoreFault};

    ghost from_gives = { λ _ fault. fault ≡ StoreFault.Memory };

    fn from(_memory: Memory) -> StoreFault {
        StoreFault::Memory
    }
}

impl From<LogFault> for StoreFault {
    ghost use Rattle.relay_store.specs.Faults.{of_log};

    ghost from_gives = { λ log fault. fault ≡ of_log log };

    fn from(fault: LogFault) -> StoreFault {
        match fault {
            LogFault::Disk => StoreFault::Disk,
            LogFault::BadLog(place) => StoreFault::BadLog(place),
            LogFault::Full(end) => StoreFault::Full(end),
            LogFault::Memory => StoreFault::Memory,
        }
    }
}
