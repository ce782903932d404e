//! Why a block is no commit object.

ghost use Rattle.std.specs.Prelude.{◌≡◌};
ghost use Rattle.at_commit.specs.declared.fault.CommitFault.{CommitFault};

use at_cbor::CborFault;
use at_cid::Memory;
use thiserror::Error;

/// Why a block is no commit object. Of several causes, the first of `TooLong`, `Form` and
/// `Version` is named.
#[derive(Clone, Copy, Debug, PartialEq, Eq, Error)]
pub enum CommitFault {
    /// The block isn't one map in DAG-CBOR with the fields of a commit object.
    #[error("the block has not the form of a commit object")]
    Form,
    /// The version isn't 3.
    #[error("the version of the commit object is not 3")]
    Version,
    /// The block has more than 8,192 bytes.
    #[error("the commit object is too long")]
    TooLong,
    /// Memory ran out.
    #[error("out of memory")]
    Memory,
}

impl From<Memory> for CommitFault {
    ghost from_gives = { λ _ e. e ≡ CommitFault.Memory };

    fn from(_e: Memory) -> CommitFault {
        CommitFault::Memory
    }
}
