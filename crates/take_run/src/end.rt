//! How taking a tape ends by a fault of its reader.

ghost use Rattle.std.specs.Prelude.{◌≡◌};
ghost use Rattle.take_run.specs.Ends.{status_of_tape};

use run_base::Status;
use tape::TapeFault;

/// The status that a fault of the tape brings.
pub(crate) fn status_of(fault: TapeFault) -> Status
    ensures { result ≡ status_of_tape fault }
{
    match fault {
        TapeFault::Torn(place) | TapeFault::BadName(place) | TapeFault::TooLong(place) => {
            Status::BadTape(place)
        }
        TapeFault::Failed => Status::ReadFault,
        TapeFault::Budget => Status::TooLong,
        TapeFault::Memory => Status::Memory,
    }
}
