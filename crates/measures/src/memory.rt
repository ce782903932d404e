//! The running out of memory.

use anyhow::{Result, bail};
use at_cid::Memory;

/// What a call gave that fails for running out of memory alone.
pub fn had<T>(answer: Result<T, Memory>) -> Result<T> {
    match answer {
        Ok(value) => Ok(value),
        Err(Memory) => bail!("out of memory"),
    }
}
