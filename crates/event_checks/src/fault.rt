//! Why the blocks of an event aren't accepted.

ghost use Rattle.std.specs.Prelude.{◌≡◌};
ghost use Rattle.event_checks.specs.Faults.{car_told, commit_told};

use at_car::CarFault;
use at_commit::CommitFault;
use at_event::Refusal;
use thiserror::Error;

/// Why the blocks of an event aren't accepted.
#[derive(Debug, Drop, Error)]
pub enum OpenFault {
    /// The first refusal that applies.
    #[error("refused")]
    Refused(Refusal),
    /// There was no memory.
    #[error("out of memory")]
    Memory,
}

impl From<CarFault> for OpenFault {
    ghost from_gives = { λ fault e. e ≡ car_told fault };

    fn from(fault: CarFault) -> OpenFault {
        match fault {
            CarFault::Header | CarFault::Section(_) | CarFault::CidForm(_) => {
                OpenFault::Refused(Refusal::BadCar)
            }
            CarFault::WrongDigest(_) => OpenFault::Refused(Refusal::WrongDigest),
            CarFault::Memory => OpenFault::Memory,
        }
    }
}

impl From<CommitFault> for OpenFault {
    ghost from_gives = { λ fault e. e ≡ commit_told fault };

    fn from(fault: CommitFault) -> OpenFault {
        match fault {
            CommitFault::Form | CommitFault::Version | CommitFault::TooLong => {
                OpenFault::Refused(Refusal::BadCommit)
            }
            CommitFault::Memory => OpenFault::Memory,
        }
    }
}
