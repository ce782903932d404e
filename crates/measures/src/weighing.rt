//! A table of accounts, for the memory that they take: each has a DID of 32 bytes and a repository whose head is known.

use crate::memory::had;
use account_state::Accounts;
use anyhow::{Result, bail, ensure};
use at_cid::{Octets, Words, cid_of};
use at_event::Head;
use at_syntax::Tid;
use relay_row::{Row, Whole};
use std::alloc::Global;

// An odd number whose multiples are spread over all of 64 bits.
const SPREAD: u64 = 0x9E37_79B9_7F4A_7C15;

// The row of a repository that was fetched.
fn synced(alloc: Global, did: &str, seq: u64) -> Result<Row> {
    let link = cid_of(did.as_bytes());
    let whole = Whole {
        seq,
        head: Head {
            rev: Tid::from_value(seq),
            data_root: link,
            commit: link,
        },
        records: 1,
        message: Octets::new(alloc),
    };
    Ok(Row::Synced(had(Words::from_str(alloc, did))?, whole, None))
}

fn add(accounts: &mut Accounts, alloc: Global, name: u64) -> Result<()> {
    let did = format!(in alloc; "did:plc:{name:024x}")?;
    let row = synced(alloc, &did, name)?;
    if accounts.touch(row.did()).is_err() {
        bail!("out of memory");
    }
    accounts.apply(row);
    Ok(())
}

fn filled(alloc: Global, is_random: bool, count: u64) -> Result<Accounts> {
    let mut accounts = Accounts::new(alloc);
    for i in 0..count {
        let name = if is_random { i.wrapping_mul(SPREAD) } else { i };
        add(&mut accounts, alloc, name)?;
    }
    Ok(accounts)
}

/// Fills a table with so many accounts, in the order `ascending` or `random`.
pub fn weigh(rt: &HostRuntime, order: &str, count: u64) -> Result<()> {
    ensure!(order == "random" || order == "ascending", "an order");
    let accounts = filled(rt.alloc(), order == "random", count)?;
    let is_there = accounts.get("did:plc:000000000000000000000000").is_some();
    println!(rt; "{order} {count} {is_there}")?;
    Ok(())
}
