//! Why a text is no table.

ghost use Rattle.std.specs.Prelude.{◌≡◌};
ghost use Rattle.at_authority.specs.declared.table_fault.TableFault.TheVariants.{Memory as Wanting};

use at_cid::Memory;
use thiserror::Error;

/// Why a text is no table.
#[derive(Clone, Copy, Debug, PartialEq, Eq, Error)]
pub enum TableFault {
    /// The line with this number, from 1, is none of a table, or lacks its line feed.
    #[error("line {0} is none of a table")]
    BadLine(u64),
    /// Memory ran out.
    #[error("out of memory")]
    Memory,
}

impl From<Memory> for TableFault {
    ghost from_gives = { λ _ e. e ≡ Wanting };

    fn from(_e: Memory) -> TableFault {
        TableFault::Memory
    }
}
