//! How a run ends that has no objects to work on.

use os_edge::Unopened;
use run_base::Status;

/// Of making the real objects, where one can't be made.
pub fn of_unopened(fault: Unopened) -> Status {
    match fault {
        Unopened::Disk => Status::Disk,
        Unopened::Older => Status::BadLog(0),
        Unopened::Memory => Status::Memory,
    }
}
