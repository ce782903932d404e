//! Calls of a memory form that fail where they are told to.

ghost use Rattle.std.specs.Prelude.{◌≡◌, ◌≤◌, ◌+◌, ◌-◌, ◌^◌, ◌↔◌, min, IsErr, IfErr, OnOk, OnErr, IfOk, Contains};
ghost use Rattle.at_cid.specs.Counts.{Rose};

use crate::memory::Memory;
use std::alloc::Global;

/// Which calls of an object are to fail, and how many it has taken and has failed.
///
/// Calls are numbered from 1. Both counts stop at their type's last value.
#[derive(Debug, Drop)]
pub struct Failures {
    /// The numbers of the calls that are to fail.
    pub listed: Vec<u64>,
    /// How many calls were taken.
    pub taken: u64,
    /// How many of them failed.
    pub faults: u64,
}

impl Failures {
    /// No call was taken, and those with the listed numbers are to fail.
    pub fn new(alloc: Global, listed: &[u64]) -> Result<Failures, Memory>
        ensures listed { IfOk result (λ made. made.listed.items ≡ listed.now) }
        ensures taken { IfOk result (λ made. made.taken ≡ 0) }
        ensures faults { IfOk result (λ made. made.faults ≡ 0) }
    {
        let listed = Vec::from_slice(alloc, listed)?;
        Ok(Failures {
            listed,
            taken: 0,
            faults: 0,
        })
    }

    /// Counts a call, which fails exactly where its number is listed.
    pub fn begin<E: Copy>(&mut self, failed: E) -> Result<(), E>
        ensures listed { IsErr result ↔ Contains self.old.listed.items self.new.taken }
        ensures taken { self.new.taken ≡ min (self.old.taken + 1) (2 ^ 64 - 1) }
        ensures ok { OnOk result (self.new.faults ≡ self.old.faults) }
        ensures err { OnErr result (Rose self.old.faults self.new.faults) }
        ensures error { IfErr result (λ e. e ≡ failed) }
        ensures counts { self.old.faults ≤ self.new.faults }
        ensures same { self.new.listed.items ≡ self.old.listed.items }
    {
        self.taken = self.taken.saturating_add(1);
        if self.listed.contains(&self.taken) {
            return self.fail(failed);
        }
        Ok(())
    }

    /// Counts a fault of a call that was begun.
    pub fn fail<E: Copy>(&mut self, failed: E) -> Result<(), E>
        ensures err { IsErr result }
        ensures error { IfErr result (λ e. e ≡ failed) }
        ensures rose { Rose self.old.faults self.new.faults }
        ensures counts { self.old.faults ≤ self.new.faults }
        ensures taken { self.new.taken ≡ self.old.taken }
        ensures same { self.new.listed.items ≡ self.old.listed.items }
    {
        self.faults = self.faults.saturating_add(1);
        Err(failed)
    }
}
