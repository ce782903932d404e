//! Why no history is made.

use at_cid::Memory;
use std::alloc::{AllocError, AllocFailed};
use thiserror::Error;

/// Why no history is made.
#[derive(Clone, Copy, Debug, PartialEq, Eq, Error)]
pub enum GenFault {
    #[error("out of memory")]
    Memory,
}

impl From<Memory> for GenFault {
    fn from(_e: Memory) -> GenFault {
        GenFault::Memory
    }
}

impl From<AllocError> for GenFault {
    fn from(_e: AllocError) -> GenFault {
        GenFault::Memory
    }
}

impl<T: Drop> From<AllocFailed<T>> for GenFault {
    fn from(_e: AllocFailed<T>) -> GenFault {
        GenFault::Memory
    }
}
