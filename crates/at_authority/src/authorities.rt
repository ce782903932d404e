//! The authorities of one method.

ghost use Rattle.std.specs.Prelude.{◌≡◌, ◌≤◌, ◌↔◌, ◌-◌, ◌∷◌, ◌++◌, [], length, string_bytes, IfOk, OnOk, OnErr, IsErrOf};
ghost use Rattle.std.specs.Str.{bytes_eq};
ghost use Rattle.at_authority.specs.Panels.{authorities_of, IsSpent};
ghost use Rattle.at_authority.specs.Calls.{Asks, returned};
ghost use Rattle.at_authority.specs.Asking.{call_of};

use crate::question::{AuthorityQuestion, ask};
use crate::{Asked, Authority, JudgeFault};
use at_cid::Memory;
use std::alloc::Global;

/// The authorities of one DID method in their order, of which those in front have fallen. They stay there, asked no more.
#[derive(Drop)]
pub(crate) struct Authorities {
    pub(crate) method: String,
    pub(crate) entries: Vec<Box<dyn Authority>>,
    pub(crate) fallen: usize,
    ghost in_range: { fallen ≤ length entries.items },
}

impl Authorities {
    /// A list of authorities with one authority.
    pub(crate) fn with(
        alloc: Global,
        method: &str,
        authority: Box<dyn Authority>,
    ) -> Result<Authorities, Memory>
        ensures method { IfOk result (λ authorities. string_bytes authorities.method ≡ method.now) }
        ensures entries { IfOk result (λ authorities. authorities.entries.items ≡ authority ∷ []) }
        ensures fallen { IfOk result (λ authorities. authorities.fallen ≡ 0) }
    {
        let method = String::from_str(alloc, method)?;
        let mut entries = Vec::new(alloc);
        entries.push(authority)?;
        Ok(Authorities {
            method,
            entries,
            fallen: 0,
        })
    }

    /// Adds an authority behind the others. Where memory runs out, it is dropped.
    pub(crate) fn push(&mut self, authority: Box<dyn Authority>) -> Result<(), Memory>
        ensures ok { OnOk result
            (self.new.entries.items ≡ self.old.entries.items ++ authority ∷ []) }
        ensures err { OnErr result (self.new.entries.items ≡ self.old.entries.items) }
        ensures fallen { self.new.fallen ≡ self.old.fallen }
        ensures method { string_bytes self.new.method ≡ string_bytes self.old.method }
    {
        self.entries.push(authority)?;
        Ok(())
    }

    /// Whether it is that of a method.
    pub(crate) fn is_of(&self, method: &str) -> bool
        ensures { result ≡ bytes_eq (string_bytes self.now.method) method.now }
    {
        self.method.as_str() == method
    }

    /// Asks the first that lives. One whose call fails falls, and the next is asked the same.
    pub(crate) fn ask(
        &mut self,
        did: &str,
        question: AuthorityQuestion<'_>,
    ) -> Result<bool, JudgeFault>
        ensures asks { Asks (returned did.now (call_of did.now question.entry) result)
            (authorities_of (λ a. tells a) (λ a. faults a) self.old.entries.items self.old.fallen)
            (authorities_of (λ a. tells a) (λ a. faults a) self.new.entries.items self.new.fallen) }
        ensures spent { IsErrOf result JudgeFault.NoneLeft ↔ IsSpent
            (authorities_of (λ a. tells a) (λ a. faults a) self.new.entries.items self.new.fallen) }
        ensures method { string_bytes self.new.method ≡ string_bytes self.old.method }
    {
        while self.fallen < self.entries.len() {
            match ask(&mut self.entries[self.fallen], did, question) {
                Ok(good) => return Ok(good),
                Err(Asked::Memory) => return Err(JudgeFault::Memory),
                Err(Asked::Failed) => self.fallen += 1,
            }
        }
        if self.entries.is_empty() {
            Ok(false)
        } else {
            Err(JudgeFault::NoneLeft)
        }
    }
}
