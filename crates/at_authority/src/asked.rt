//! Why an authority gave no answer.

ghost use Rattle.std.specs.Prelude.{◌≡◌};
ghost use Rattle.at_authority.specs.declared.asked.Asked.TheVariants.{Memory as Wanting};

use at_cid::Memory;
use thiserror::Error;

/// Why an authority gave no answer.
#[derive(Clone, Copy, Debug, PartialEq, Eq, Error)]
pub enum Asked {
    /// The call failed, and the authority has counted it.
    #[error("a call of an authority failed")]
    Failed,
    /// Memory ran out.
    #[error("out of memory")]
    Memory,
}

impl From<Memory> for Asked {
    ghost from_gives = { λ _ e. e ≡ Wanting };

    fn from(_e: Memory) -> Asked {
        Asked::Memory
    }
}
