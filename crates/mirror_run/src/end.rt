//! How mirroring a stream ends by a fault.

ghost use Rattle.std.specs.Prelude.{◌≡◌};
ghost use Rattle.mirror_run.specs.Taking.{status_of_message, status_of_stream};

use crate::reader::StreamFault;
use mirror::MirrorFault;
use run_base::Status;

/// The status that a fault of the stream brings, with the place of the message at fault.
pub(crate) fn of_stream(fault: StreamFault, place: u64) -> Status
    ensures { result ≡ status_of_stream fault place }
{
    match fault {
        StreamFault::Bad => Status::BadStream(place),
        StreamFault::Failed => Status::ReadFault,
        StreamFault::Limit => Status::TooLong,
        StreamFault::Memory => Status::Memory,
    }
}

/// The status that a message brings which wasn't taken, with its place.
pub(crate) fn of_message(fault: MirrorFault, place: u64) -> Status
    ensures { result ≡ status_of_message fault place }
{
    match fault {
        MirrorFault::BadMessage => Status::BadStream(place),
        MirrorFault::Repos => Status::Repos,
        MirrorFault::Memory => Status::Memory,
    }
}
