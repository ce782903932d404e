//! An authority in memory, which tells its value.

ghost use Rattle.std.specs.Prelude.{◌≡◌, ◌↔◌, Some, option_map, IfOk, OnOk, OnErr, IsErrOf};
ghost use Rattle.relay_io.specs.Calls.{FailsNext, IsFresh, next_call};
ghost use Rattle.at_authority.specs.Queries.{Query, asks_home, asks_verdict, did_asked, refreshed};
ghost use Rattle.at_authority.specs.Answers.{Says, CountsFailure};
ghost use Rattle.at_authority.specs.Standing.{answer_of};

use crate::{Asked, Authority, Table};
use at_cid::{Failures, Memory};
use std::alloc::Global;
use std::collections::BTreeSet;

/// An authority over two tables: it answers by the first, and about a DID that was refreshed by the second. A call fails
/// exactly where its number, from 1, was listed; the calls of all three methods are counted together, those that want memory
/// too.
#[derive(Drop)]
pub struct TableAuthority {
    alloc: Global,
    present: Table,
    later: Table,
    // The DIDs that were refreshed.
    refreshed: BTreeSet<String>,
    failures: Failures,
}

impl TableAuthority {
    ghost use Rattle.at_authority.specs.InMemory.{telling_of, calls_of};

    /// An authority over these tables, whose calls with the numbers in `failing` fail.
    pub fn new(
        alloc: Global,
        present: Table,
        later: Table,
        failing: &[u64],
    ) -> Result<TableAuthority, Memory>
        ensures now { IfOk result
            (λ made. (q : Query) → (telling_of made).now q ≡ answer_of present q) }
        ensures later { IfOk result
            (λ made. (q : Query) → (telling_of made).later q ≡ answer_of later q) }
        ensures fresh { IfOk result (λ made. IsFresh failing.now (calls_of made)) }
    {
        let failures = Failures::new(alloc, failing)?;
        Ok(TableAuthority {
            alloc,
            present,
            later,
            refreshed: BTreeSet::new(alloc),
            failures,
        })
    }

    // The table by which it answers about a DID.
    fn table(&self, did: &str) -> &Table
        ensures { (q : Query) → did_asked q ≡ did.now
            → answer_of result.now q ≡ (telling_of self.now).now q }
    {
        if self.refreshed.contains(did) {
            &self.later
        } else {
            &self.present
        }
    }
}

impl Authority for TableAuthority {
    ghost use Rattle.at_authority.specs.InMemory.{telling_of, calls_of};

    ghost tells = { λ authority. Some (telling_of authority) };

    ghost faults = { λ authority. (calls_of authority).faults };

    fn home(&mut self, did: &str, host: &str) -> Result<bool, Asked>
        ensures says { IfOk result
            (Says (Some (telling_of self.old)) (asks_home did.now host.now)) }
        ensures kept { Some (telling_of self.new) ≡ Some (telling_of self.old) }
        ensures counted { CountsFailure result
            (calls_of self.old).faults (calls_of self.new).faults }

        // Where it fails.
        ensures fails { IsErrOf result Asked.Failed ↔ FailsNext (calls_of self.old) }
        ensures number { (calls_of self.new).taken ≡ next_call (calls_of self.old) }
        ensures listed { (calls_of self.new).listed.items ≡ (calls_of self.old).listed.items }
    {
        self.failures.begin(Asked::Failed)?;
        Ok(self.table(did).home(did, host))
    }

    fn verdict(&mut self, did: &str, digest: &[u8; 32], sig: &[u8]) -> Result<bool, Asked>
        ensures says { IfOk result
            (Says (Some (telling_of self.old)) (asks_verdict did.now digest.now sig.now)) }
        ensures kept { Some (telling_of self.new) ≡ Some (telling_of self.old) }
        ensures counted { CountsFailure result
            (calls_of self.old).faults (calls_of self.new).faults }

        // Where it fails.
        ensures fails { IsErrOf result Asked.Failed ↔ FailsNext (calls_of self.old) }
        ensures number { (calls_of self.new).taken ≡ next_call (calls_of self.old) }
        ensures listed { (calls_of self.new).listed.items ≡ (calls_of self.old).listed.items }
    {
        self.failures.begin(Asked::Failed)?;
        match self.table(did).verdict(did, digest, sig) {
            Ok(good) => Ok(good),
            Err(Memory) => Err(Asked::Memory),
        }
    }

    fn refresh(&mut self, did: &str) -> Result<(), Asked>
        ensures refreshed { OnOk result (Some (telling_of self.new)
            ≡ option_map (refreshed did.now) (Some (telling_of self.old))) }
        ensures kept { OnErr result (Some (telling_of self.new) ≡ Some (telling_of self.old)) }
        ensures counted { CountsFailure result
            (calls_of self.old).faults (calls_of self.new).faults }

        // Where it fails.
        ensures fails { IsErrOf result Asked.Failed ↔ FailsNext (calls_of self.old) }
        ensures number { (calls_of self.new).taken ≡ next_call (calls_of self.old) }
        ensures listed { (calls_of self.new).listed.items ≡ (calls_of self.old).listed.items }
    {
        self.failures.begin(Asked::Failed)?;
        let Ok(did) = String::from_str(self.alloc, did) else {
            return Err(Asked::Memory);
        };
        let Ok(_) = self.refreshed.insert(did) else {
            return Err(Asked::Memory);
        };
        Ok(())
    }
}
