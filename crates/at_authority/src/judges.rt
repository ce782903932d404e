//! Who is asked for homes and verdicts.

ghost use Rattle.std.specs.Prelude.{◌≡◌, ◌↔◌, ℕ, List, IsTrue, IsErrOf};
ghost use Rattle.at_syntax.specs.Did.{is_did, method_of};
ghost use Rattle.at_authority.specs.Queries.{asks_home, asks_verdict};
ghost use Rattle.at_authority.specs.Panels.{Authorities, IsSpent};
ghost use Rattle.at_authority.specs.Calls.{IsCall, answers, refreshes, returned};

use thiserror::Error;

/// Why the judges gave no answer.
#[derive(Clone, Copy, Debug, PartialEq, Eq, Error)]
pub enum JudgeFault {
    /// All authorities of the DID's method have fallen.
    #[error("no authority of the method is left")]
    NoneLeft,
    /// Memory ran out.
    #[error("out of memory")]
    Memory,
}

/// Who is asked for homes and verdicts. For each DID method it has a list of authorities, of which the first that lives is
/// asked; an authority whose call fails falls, and the next is asked the same. A DID that is asked about must be one, as
/// [`did_ok`](at_syntax::did_ok) tells.
pub trait Judges {
    /// The list of authorities of each method.
    ghost panel: { Self → List ℕ → Authorities };

    /// Whether the host is the home of the DID. A method that never had an authority has none.
    fn home(&mut self, did: &str, host: &str) -> Result<bool, JudgeFault>
        requires { IsTrue (is_did did.now) }
        ensures call { IsCall (returned did.now (answers (asks_home did.now host.now)) result)
            (panel self.old) (panel self.new) }
        ensures spent { IsErrOf result JudgeFault.NoneLeft
            ↔ IsSpent (panel self.new (method_of did.now)) };

    /// Whether the signature under a digest, the SHA-256 of what was signed, is good for the DID. Where its method never had
    /// an authority, none is.
    fn verdict(&mut self, did: &str, digest: &[u8; 32], sig: &[u8]) -> Result<bool, JudgeFault>
        requires { IsTrue (is_did did.now) }
        ensures call { IsCall
            (returned did.now (answers (asks_verdict did.now digest.now sig.now)) result)
            (panel self.old) (panel self.new) }
        ensures spent { IsErrOf result JudgeFault.NoneLeft
            ↔ IsSpent (panel self.new (method_of did.now)) };

    /// Has the first living authority look up anew what it knows of the DID. Does nothing where its method never had one.
    fn refresh(&mut self, did: &str) -> Result<(), JudgeFault>
        requires { IsTrue (is_did did.now) }
        ensures call { IsCall (returned did.now (λ _. refreshes did.now) result)
            (panel self.old) (panel self.new) }
        ensures spent { IsErrOf result JudgeFault.NoneLeft
            ↔ IsSpent (panel self.new (method_of did.now)) };
}
