//! Why a body was not read.

ghost use Rattle.std.specs.Prelude.{◌≡◌};

use at_cid::Memory;
use thiserror::Error;

/// Why a body was not read.
#[derive(Clone, Copy, Debug, PartialEq, Eq, Error)]
pub enum RowFault {
    /// The body isn't a list of 1 to 64 rows in their one encoding.
    #[error("the body is no list of rows")]
    BadRow,
    /// Memory ran out.
    #[error("out of memory")]
    Memory,
}

impl From<Memory> for RowFault {
    ghost use Rattle.row_codec.specs.declared.fault.RowFault.{RowFault};

    ghost from_gives = { λ _ e. e ≡ RowFault.Memory };

    fn from(_e: Memory) -> RowFault {
        RowFault::Memory
    }
}
