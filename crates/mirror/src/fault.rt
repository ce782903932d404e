//! Why a message wasn't taken.

ghost use Rattle.std.specs.Prelude.{◌≡◌};

use at_cid::Memory;
use thiserror::Error;

/// Why a message wasn't taken.
#[derive(Clone, Copy, Debug, PartialEq, Eq, Error)]
pub enum MirrorFault {
    /// The message is none of the four events, or its number isn't above the last one, and it is no `#info`.
    #[error("the message is no event above the last number")]
    BadMessage,
    /// A call on the repositories failed.
    #[error("a repository could not be read")]
    Repos,
    /// Out of memory.
    #[error("out of memory")]
    Memory,
}

impl From<Memory> for MirrorFault {
    ghost use Rattle.mirror.specs.declared.fault.MirrorFault.{MirrorFault};

    ghost from_gives = { λ _ e. e ≡ MirrorFault.Memory };

    fn from(_e: Memory) -> MirrorFault {
        MirrorFault::Memory
    }
}
