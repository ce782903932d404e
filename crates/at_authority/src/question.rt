//! What is asked of an authority.

ghost use Rattle.std.specs.Prelude.{◌≡◌, IfOk, OnErr};
ghost use Rattle.at_authority.specs.Answers.{CountsFailure};
ghost use Rattle.at_authority.specs.Asking.{call_of};
ghost use Rattle.at_authority.specs.Calls.{Turns};

use crate::{Asked, Authority};

/// A question about a DID. The answer to a refresh is `true`.
#[derive(Clone, Copy)]
pub(crate) enum AuthorityQuestion<'a> {
    /// Whether this host is its home.
    Home(&'a str),
    /// Whether the signature under the digest is good for it.
    Verdict { digest: &'a [u8; 32], sig: &'a [u8] },
    /// Look it up anew.
    Refresh,
}

/// Asks an authority.
pub(crate) fn ask(
    authority: &mut Box<dyn Authority>,
    did: &str,
    question: AuthorityQuestion<'_>,
) -> Result<bool, Asked>
    ensures does { IfOk result (λ good. Turns (call_of did.now question.entry good)
        (tells authority.old) (tells authority.new)) }
    ensures kept { OnErr result (tells authority.new ≡ tells authority.old) }
    ensures counted { CountsFailure result (faults authority.old) (faults authority.new) }
{
    match question {
        AuthorityQuestion::Home(host) => authority.home(did, host),
        AuthorityQuestion::Verdict { digest, sig } => authority.verdict(did, digest, sig),
        AuthorityQuestion::Refresh => {
            authority.refresh(did)?;
            Ok(true)
        }
    }
}
