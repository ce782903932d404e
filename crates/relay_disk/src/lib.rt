//! A disk as the log sees it: what its calls do, and what a crash may leave of them.
#![tactic(auto)]

mod call;
mod counts;
mod disk;
mod file;
mod file_calls;
mod fuse;
mod laws;
mod memory;
mod passes;
mod room;
mod worst;

pub use call::Call;
pub use disk::{Disk, Failed, SIZES};
pub use file::FileDisk;
pub use file_calls::FileCalls;
pub use fuse::FuseDisk;
pub use laws::{parts_are_within_ranges, ranges_are_left_by_parts};
pub use memory::MemoryDisk;
pub use worst::WORST_CASES;
