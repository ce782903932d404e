//! Why a message or a word came to nothing.

use at_cid::Memory;
use thiserror::Error;

/// Why a message or a word came to nothing.
#[derive(Clone, Copy, Debug, PartialEq, Eq, Error)]
pub enum StepFault {
    /// The last number was given, and another one is wanted.
    #[error("the numbers have ended")]
    SeqEnd,
    /// No authority of the account's method is left.
    #[error("no authority is left")]
    Authority,
    /// A repository couldn't be read.
    #[error("a repository couldn't be read")]
    Repos,
    /// The clock failed.
    #[error("the clock failed")]
    Clock,
    /// Memory ran out.
    #[error("out of memory")]
    Memory,
}

impl From<Memory> for StepFault {
    ghost use Rattle.std.specs.Prelude.{◌≡◌};
    ghost use Rattle.relay_step.specs.declared.fault.StepFault.{StepFault};

    ghost from_gives = { λ _ fault. fault ≡ StepFault.Memory };

    fn from(_memory: Memory) -> StepFault {
        StepFault::Memory
    }
}
