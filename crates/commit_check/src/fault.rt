//! Why a commit isn't accepted.

ghost use Rattle.std.specs.Prelude.{◌≡◌};
ghost use Rattle.commit_check.specs.declared.fault.CheckFault as fault;
ghost use Rattle.commit_check.specs.Refusing.{opening_told, undoing_told, view_told};
ghost use Rattle.event_checks.specs.Faults.{car_told};

use at_car::CarFault;
use at_cid::Memory;
use at_event::Refusal;
use event_checks::OpenFault;
use mst_list::UndoFault;
use mst_view::ViewFault;
use thiserror::Error;

/// Why a check of a commit fails.
#[derive(Debug, Drop, Error)]
pub enum CheckFault {
    /// The first refusal that applies.
    #[error("refused")]
    Refused(Refusal),
    /// There was no memory.
    #[error("out of memory")]
    Memory,
}

impl From<Memory> for CheckFault {
    ghost from_gives = { λ _ e. e ≡ fault.CheckFault.Memory };

    fn from(_memory: Memory) -> CheckFault {
        CheckFault::Memory
    }
}

impl From<OpenFault> for CheckFault {
    ghost from_gives = { λ opening e. e ≡ opening_told opening };

    fn from(opening: OpenFault) -> CheckFault {
        match opening {
            OpenFault::Refused(refusal) => CheckFault::Refused(refusal),
            OpenFault::Memory => CheckFault::Memory,
        }
    }
}

impl From<CarFault> for CheckFault {
    ghost from_gives = { λ fault e. e ≡ opening_told (car_told fault) };

    fn from(fault: CarFault) -> CheckFault {
        CheckFault::from(OpenFault::from(fault))
    }
}

impl From<ViewFault> for CheckFault {
    ghost from_gives = { λ view e. e ≡ view_told view };

    fn from(view: ViewFault) -> CheckFault {
        match view {
            ViewFault::NoBlock(link) | ViewFault::BadNode(link) => {
                CheckFault::Refused(Refusal::BadNode(link))
            }
            ViewFault::Memory => CheckFault::Memory,
        }
    }
}

impl From<UndoFault> for CheckFault {
    ghost from_gives = { λ undoing e. e ≡ undoing_told undoing };

    fn from(undoing: UndoFault) -> CheckFault {
        match undoing {
            UndoFault::OtherOp(i) => CheckFault::Refused(Refusal::OtherOp(i)),
            UndoFault::NotCovered(i) => CheckFault::Refused(Refusal::NotCovered(i)),
            UndoFault::Memory => CheckFault::Memory,
        }
    }
}
