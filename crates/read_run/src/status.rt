//! How reading ends by a fault.

ghost use Rattle.std.specs.Prelude.{◌≡◌};
ghost use Rattle.read_run.specs.Ends.{status_of_events as of_events, status_of_replay as of_replay};

use backfill::ReplayFault;
use event_window::EventsFault;
use run_base::Status;

/// By a fault of the events.
pub(crate) fn status_of_events(fault: EventsFault) -> Status
    ensures { result ≡ of_events fault }
{
    match fault {
        EventsFault::Disk => Status::Disk,
        EventsFault::Memory => Status::Memory,
        EventsFault::BadLog(place) => Status::BadLog(place),
    }
}

/// By a fault of a replay.
pub(crate) fn status_of_replay(fault: ReplayFault) -> Status
    ensures { result ≡ of_replay fault }
{
    match fault {
        ReplayFault::Output => Status::WriteFault,
        ReplayFault::Disk => Status::Disk,
        ReplayFault::Memory => Status::Memory,
        ReplayFault::BadLog(place) => Status::BadLog(place),
    }
}
