//! Paths of files in a folder.

use at_cid::Memory;
use std::alloc::Global;

/// The path of a file in a folder.
pub fn path_in(alloc: Global, folder: &str, name: &str) -> Result<String, Memory> {
    let mut path = String::from_str(alloc, folder)?;
    path.push('/')?;
    path.push_str(name)?;
    Ok(path)
}

/// The path of the file beside another one that has this ending more.
pub(crate) fn path_beside(alloc: Global, path: &str, ending: &str) -> Result<String, Memory> {
    let mut beside = String::from_str(alloc, path)?;
    beside.push_str(ending)?;
    Ok(beside)
}
