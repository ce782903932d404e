//! The name of a record.

ghost use Rattle.std.specs.Prelude.{◌≡◌, false, true, MatchOption};
ghost use Rattle.at_syntax.specs.Host.{is_host};

use at_syntax::host_ok;

/// The bytes as the name of a host, where they are one.
#[tactic(auto, using(crate::proofs::Names::tests_of_names))]
pub(crate) fn host_of(bytes: &[u8]) -> Option<&str>
    ensures { MatchOption result
        (is_host bytes.now ≡ false) (λ host. (host.now ≡ bytes.now) × (is_host bytes.now ≡ true)) }
{
    match str::from_utf8(bytes) {
        Ok(text) if host_ok(text) => Some(text),
        _ => None,
    }
}
