//! A whole repository, checked.

use crate::memory::had;
use anyhow::{Result, bail};
use os_edge::{FileRepos, Reporter};
use relay_io::Repos;
use repo_sync::check_repo;

/// Checks the repository in the file of a DID.
pub fn walk(rt: &HostRuntime, folder: &str, did: &str) -> Result<()> {
    let reporter = had(Reporter::new(*rt, "measures"))?;
    let mut repos = FileRepos::new(reporter, rt.alloc(), folder.to_string(rt.alloc())?);
    if !repos.open(did)? {
        bail!("no repository of this DID");
    }
    match check_repo(rt.alloc(), &mut repos, did, None) {
        Ok(found) => println!(rt; "records {}", found.records)?,
        Err(fault) => println!(rt; "{} {fault}", fault.number())?,
    }
    Ok(())
}
