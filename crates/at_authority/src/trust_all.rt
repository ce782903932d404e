//! Judges that say yes to everything.

ghost use Rattle.std.specs.Prelude.{◌≡◌};
ghost use Rattle.at_authority.specs.Trusting.{trusting};

use crate::{JudgeFault, Judges};

/// Judges that say yes: every home is right and every verdict good. They never fail and take no memory. Each method has one
/// authority, which never falls.
#[derive(Clone, Copy, Debug, PartialEq, Eq)]
pub struct TrustAll;

impl Judges for TrustAll {
    ghost panel = { λ _ _. trusting };

    fn home(&mut self, _did: &str, _host: &str) -> Result<bool, JudgeFault> {
        Ok(true)
    }

    fn verdict(&mut self, _did: &str, _digest: &[u8; 32], _sig: &[u8]) -> Result<bool, JudgeFault> {
        Ok(true)
    }

    fn refresh(&mut self, _did: &str) -> Result<(), JudgeFault> {
        Ok(())
    }
}
