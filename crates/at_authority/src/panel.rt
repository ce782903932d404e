//! Judges that ask boxed authorities.

ghost use Rattle.std.specs.Prelude.{◌≡◌, ◌≢◌, ◌∷◌, ◌++◌, ◌↔◌, ℕ, List, [], length, string_bytes, IsTrue, OnOk, OnErr, IsErrOf, MatchOption};
ghost use Rattle.std.specs.Str.{bytes_eq};
ghost use Rattle.at_syntax.specs.Did.{is_did, method_of};
ghost use Rattle.at_authority.specs.Panels.{FirstAt, NonePasses, authorities_of, authorities_at, never, living, IsSpent};
ghost use Rattle.at_authority.specs.Calls.{IsCall, returned};
ghost use Rattle.at_authority.specs.Asking.{call_of};

use crate::authorities::Authorities;
use crate::question::AuthorityQuestion;
use crate::{Authority, JudgeFault, Judges};
use at_cid::Memory;
use at_syntax::method;
use std::alloc::Global;

/// A list of boxed authorities for each DID method. A call asks the first living one of the DID's method; one whose call
/// fails falls within the question, and the next is asked the same.
#[derive(Drop)]
pub struct Panel {
    alloc: Global,
    lists: Vec<Authorities>,
}

impl Panel {
    /// A panel without authorities. Takes no memory.
    pub fn new(alloc: Global) -> Panel
        ensures { (name : List ℕ) → ⟦<Panel as Judges>⟧.panel result name ≡ never }
    {
        Panel {
            alloc,
            lists: Vec::new(alloc),
        }
    }

    // Where the list of authorities of a method stands.
    fn position(&self, name: &str) -> Option<usize>
        ensures { MatchOption result
            (NonePasses (λ b. bytes_eq (string_bytes b.method) name.now) self.now.lists.items)
            (FirstAt (λ b. bytes_eq (string_bytes b.method) name.now) self.now.lists.items) }
    {
        for (i, authorities) in self.lists.iter().enumerate() {
            if authorities.is_of(name) {
                return Some(i);
            }
        }
        None
    }

    /// Adds an authority behind those of the method. Where memory runs out, it is dropped, and the panel is as before.
    pub fn add(&mut self, name: &str, authority: Box<dyn Authority>) -> Result<(), Memory>
        ensures added { OnOk result ((⟦<Panel as Judges>⟧.panel self.new name.now).entries
            ≡ (⟦<Panel as Judges>⟧.panel self.old name.now).entries
            ++ record { value = tells authority; faults = faults authority } ∷ []) }
        ensures fallen { (⟦<Panel as Judges>⟧.panel self.new name.now).fallen
            ≡ (⟦<Panel as Judges>⟧.panel self.old name.now).fallen }
        ensures others { (other : List ℕ) → other ≢ name.now
            → ⟦<Panel as Judges>⟧.panel self.new other ≡ ⟦<Panel as Judges>⟧.panel self.old other }
        ensures kept { OnErr result ((other : List ℕ)
            → ⟦<Panel as Judges>⟧.panel self.new other ≡ ⟦<Panel as Judges>⟧.panel self.old other) }
    {
        match self.position(name) {
            Some(i) => self.lists[i].push(authority),
            None => {
                let authorities = Authorities::with(self.alloc, name, authority)?;
                self.lists.push(authorities)?;
                Ok(())
            }
        }
    }

    /// How many authorities of the method live. Takes no memory.
    pub fn left(&self, name: &str) -> usize
        ensures { result ≡ length (living (⟦<Panel as Judges>⟧.panel self.now name.now)) }
    {
        match self.position(name) {
            Some(i) => {
                let authorities = &self.lists[i];
                authorities.entries.len() - authorities.fallen
            }
            None => 0,
        }
    }

    /// How many authorities of the method have fallen. Takes no memory.
    pub fn fallen(&self, name: &str) -> u64
        ensures { result ≡ (⟦<Panel as Judges>⟧.panel self.now name.now).fallen }
    {
        match self.position(name) {
            Some(i) => self.lists[i].fallen as u64,
            None => 0,
        }
    }

    fn ask(&mut self, did: &str, question: AuthorityQuestion<'_>) -> Result<bool, JudgeFault>
        requires { IsTrue (is_did did.now) }
        ensures call { IsCall (returned did.now (call_of did.now question.entry) result)
            (⟦<Panel as Judges>⟧.panel self.old) (⟦<Panel as Judges>⟧.panel self.new) }
        ensures spent { IsErrOf result JudgeFault.NoneLeft
            ↔ IsSpent (⟦<Panel as Judges>⟧.panel self.new (method_of did.now)) }
    {
        match self.position(method(did)) {
            Some(i) => self.lists[i].ask(did, question),
            None => Ok(false),
        }
    }
}

impl Judges for Panel {
    ghost panel = { λ p. authorities_at (λ b. string_bytes b.method) (λ b. authorities_of (λ a. (Authority-box a).tells a.value) (λ a. (Authority-box a).faults a.value) b.entries.items b.fallen) p.lists.items };

    fn home(&mut self, did: &str, host: &str) -> Result<bool, JudgeFault> {
        self.ask(did, AuthorityQuestion::Home(host))
    }

    fn verdict(&mut self, did: &str, digest: &[u8; 32], sig: &[u8]) -> Result<bool, JudgeFault> {
        self.ask(did, AuthorityQuestion::Verdict { digest, sig })
    }

    fn refresh(&mut self, did: &str) -> Result<(), JudgeFault> {
        match self.ask(did, AuthorityQuestion::Refresh) {
            Ok(_) => Ok(()),
            Err(fault) => Err(fault),
        }
    }
}
