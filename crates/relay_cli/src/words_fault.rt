//! Why words are no command.

use at_cid::Memory;
use thiserror::Error;

/// Why words were not taken as a command.
#[derive(Clone, Copy, Debug, PartialEq, Eq, Error)]
pub enum WordsFault {
    /// They are the encoding of no command.
    #[error("no command")]
    NoCommand,
    /// Memory ran out.
    #[error("out of memory")]
    Memory,
}

impl From<Memory> for WordsFault {
    ghost use Rattle.std.specs.Prelude.{◌≡◌};
    ghost use Rattle.relay_cli.specs.declared.words_fault.WordsFault.{WordsFault};

    ghost from_gives = { λ _ e. e ≡ WordsFault.Memory };

    fn from(_e: Memory) -> WordsFault {
        WordsFault::Memory
    }
}
