//! What a tape answers in place of a record.

use at_cid::Memory;
use relay_io::Failed;
use thiserror::Error;

/// Why a tape gave no record. A place is that of the record at fault, in bytes from the front of the tape.
#[derive(Clone, Copy, Debug, PartialEq, Eq, Error)]
pub enum TapeFault {
    /// The input ends inside the record at this place.
    #[error("the record at {0} is cut")]
    Torn(u64),
    /// The name at this place is no host's.
    #[error("the record at {0} names no host")]
    BadName(u64),
    /// The message at this place is longer than a message may be.
    #[error("the message of the record at {0} is too long")]
    TooLong(u64),
    /// A call of the source failed.
    #[error("a read failed")]
    Failed,
    /// Memory ran out.
    #[error("out of memory")]
    Memory,
    /// As many bytes were taken as may be, and they are too few for an answer.
    #[error("more than the limit")]
    Budget,
}

impl From<Memory> for TapeFault {
    ghost use Rattle.std.specs.Prelude.{◌≡◌};
    ghost use Rattle.tape.specs.declared.fault.TapeFault.{TapeFault};

    ghost from_gives = { λ _ e. e ≡ TapeFault.Memory };

    fn from(_e: Memory) -> TapeFault {
        TapeFault::Memory
    }
}

impl From<Failed> for TapeFault {
    ghost use Rattle.std.specs.Prelude.{◌≡◌};
    ghost use Rattle.tape.specs.declared.fault.TapeFault.{TapeFault};

    ghost from_gives = { λ _ e. e ≡ TapeFault.Failed };

    fn from(_e: Failed) -> TapeFault {
        TapeFault::Failed
    }
}
