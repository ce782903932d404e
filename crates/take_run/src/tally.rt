//! What a run keeps for its report.

ghost use Rattle.std.specs.Prelude.{◌≡◌, ◌≤◌, ◌<◌, ◌^◌, [], ◌∷◌, ◌++◌, Some, None, OnOk, List, ℕ};
ghost use Rattle.take_run.specs.Names.{AreNamesOf};

use at_cid::{Memory, Words};
use std::alloc::Global;
use std::collections::BTreeSet;
use store_take::{Fetch, Outcome};

/// The hosts that have ended, in the order of their ends, and how many messages there were, how many numbers were given and how
/// many messages were refused. A host is looked up by its name, at the logarithm of the number of those that have ended.
#[derive(Drop)]
pub struct Tally {
    pub ended: Vec<Words>,
    names: BTreeSet<String>,
    pub messages: u64,
    pub events: u64,
    pub refused: u64,
    ghost looked_up: { AreNamesOf names ended.items },
    ghost few_events: { events ≤ messages },
    ghost few_refused: { refused ≤ messages },
}

impl Tally {
    ghost use Rattle.relay_core.specs.Runs.{has_ended};
    ghost use Rattle.take_run.specs.Said.{IsNoted};

    /// The tally of no messages.
    pub fn new(alloc: Global) -> Tally
        ensures ended { result.ended.items ≡ [] }
        ensures messages { result.messages ≡ 0 }
        ensures events { result.events ≡ 0 }
        ensures refused { result.refused ≡ 0 }
    {
        Tally {
            ended: Vec::new(alloc),
            names: BTreeSet::new(alloc),
            messages: 0,
            events: 0,
            refused: 0,
        }
    }

    /// Whether this host has ended.
    pub fn has_ended(&self, host: &str) -> bool
        ensures { result ≡ has_ended self.now.ended.items host.now }
    {
        self.names.contains(host)
    }

    /// Notes a message of a host that ended before.
    pub(crate) fn skip(&mut self)
        requires { self.old.messages < 2 ^ 63 }
        ensures { (host : List ℕ) → IsNoted ((host, None) ∷ []) self.old self.new }
    {
        self.messages += 1;
    }

    // Notes the end of a host.
    fn end(&mut self, alloc: Global, host: &str) -> Result<(), Memory>
        ensures ended { OnOk result (self.new.ended.items ≡ self.old.ended.items ++ host.now ∷ []) }
        ensures messages { self.new.messages ≡ self.old.messages }
        ensures events { self.new.events ≡ self.old.events }
        ensures refused { self.new.refused ≡ self.old.refused }
    {
        self.ended.reserve(1)?;
        let ended = Words::from_str(alloc, host)?;
        let name = String::from_str(alloc, host)?;
        self.names.insert(name)?;
        self.ended.push_reserved(ended);
        Ok(())
    }

    /// Notes what was answered to a message of a host.
    pub(crate) fn note(
        &mut self,
        alloc: Global,
        host: &str,
        outcome: &Outcome,
    ) -> Result<(), Memory>
        requires { self.old.messages < 2 ^ 63 }
        ensures { OnOk result (IsNoted ((host.now, Some outcome.now) ∷ []) self.old self.new) }
    {
        if let Outcome::Ended(_) = outcome {
            self.end(alloc, host)?;
        }
        self.messages += 1;
        match outcome {
            Outcome::Event(_, _) => self.events += 1,
            Outcome::Refused(_, _, Fetch::Whole(_, _)) => {
                self.events += 1;
                self.refused += 1;
            }
            Outcome::Refused(_, _, _) => self.refused += 1,
            _ => {}
        }
        Ok(())
    }
}
