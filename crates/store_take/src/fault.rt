//! Faults of steps as the store's.

ghost use Rattle.std.specs.Prelude.{◌≡◌};
ghost use Rattle.store_take.specs.Faults.{of_step};

use relay_step::StepFault;
use relay_store::StoreFault;

/// The fault of a store whose step failed with this.
pub(crate) fn of_step(fault: StepFault) -> StoreFault
    ensures { result ≡ of_step fault }
{
    match fault {
        StepFault::SeqEnd => StoreFault::SeqEnd,
        StepFault::Authority => StoreFault::Authority,
        StepFault::Repos => StoreFault::Repos,
        StepFault::Clock => StoreFault::Clock,
        StepFault::Memory => StoreFault::Memory,
    }
}
