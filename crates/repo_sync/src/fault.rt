//! Why a repository isn't accepted.

ghost use Rattle.std.specs.Prelude.{◌≡◌};
ghost use Rattle.repo_sync.specs.Faults.{fault_number};

use at_cid::{Cid, Memory};
use at_syntax::Tid;
use mst_whole::WalkFault;
use relay_io::Failed;
use thiserror::Error;

/// Why a repository isn't accepted.
#[derive(Debug, Drop, Error)]
pub enum RepoFault {
    /// The bytes are no CAR.
    #[error("the repository is no CAR")]
    BadCar,
    /// There is no first root, or its block isn't there.
    #[error("the commit block is missing")]
    NoCommit,
    /// The block of the first root is no commit object.
    #[error("the commit block is no commit object")]
    BadCommit,
    /// The commit object names another account.
    #[error("the commit is another account's")]
    OtherDid,
    /// The commit has this revision, which is below the least.
    #[error("the revision is below the least")]
    Lagging(Tid),
    /// The first fault of the tree is that the block under this link isn't there.
    #[error("a block of the tree is missing")]
    NotWhole(Cid),
    /// The first fault of the tree is that the block under this link is no node, or may not stand at its place.
    #[error("a block of the tree is no node of it")]
    BadNode(Cid),
    /// Memory ran out, or the tree has more keys than are counted.
    #[error("out of memory")]
    Memory,
    /// There are more bytes than a repository may have.
    #[error("the repository is too long")]
    TooLong,
    /// The signature is bad. A check of a repository by itself never says so: it asks nobody.
    #[error("the signature is bad")]
    BadSignature,
    /// A read failed.
    #[error("a read failed")]
    Failed,
}

impl RepoFault {
    /// The number that rows and reports give.
    pub fn number(&self) -> u8
        ensures { result ≡ fault_number self.now }
    {
        match self {
            RepoFault::BadCar => 1,
            RepoFault::NoCommit => 2,
            RepoFault::BadCommit => 3,
            RepoFault::OtherDid => 4,
            RepoFault::Lagging(_) => 5,
            RepoFault::NotWhole(_) => 6,
            RepoFault::BadNode(_) => 7,
            RepoFault::Memory => 8,
            RepoFault::TooLong => 9,
            RepoFault::BadSignature => 10,
            RepoFault::Failed => 11,
        }
    }
}

impl From<Memory> for RepoFault {
    ghost use Rattle.std.specs.Prelude.{◌≡◌};
    ghost use Rattle.repo_sync.specs.declared.fault.RepoFault.{RepoFault};

    ghost from_gives = { λ _ e. e ≡ RepoFault.Memory };

    fn from(_memory: Memory) -> RepoFault {
        RepoFault::Memory
    }
}

impl From<Failed> for RepoFault {
    ghost use Rattle.std.specs.Prelude.{◌≡◌};
    ghost use Rattle.repo_sync.specs.declared.fault.RepoFault.{RepoFault};

    ghost from_gives = { λ _ e. e ≡ RepoFault.Failed };

    fn from(_failed: Failed) -> RepoFault {
        RepoFault::Failed
    }
}

impl From<WalkFault> for RepoFault {
    ghost use Rattle.std.specs.Prelude.{◌≡◌};
    ghost use Rattle.repo_sync.specs.Faults.{of_walk};

    ghost from_gives = { λ fault e. e ≡ of_walk fault };

    fn from(fault: WalkFault) -> RepoFault {
        match fault {
            WalkFault::NoBlock(link) => RepoFault::NotWhole(link),
            WalkFault::BadNode(link) => RepoFault::BadNode(link),
            WalkFault::Memory => RepoFault::Memory,
        }
    }
}
