//! One who can be asked about DIDs.

ghost use Rattle.std.specs.Prelude.{◌≡◌, ℕ, Option, option_map, IfOk, OnOk, OnErr};
ghost use Rattle.at_authority.specs.Queries.{Telling, asks_home, asks_verdict, refreshed};
ghost use Rattle.at_authority.specs.Answers.{Says, CountsFailure};

use crate::Asked;

/// One who can be asked about DIDs. A caller makes it, boxes it and hands it in.
///
/// It may tell its value: how it answers now, and how it will answer about a DID that it refreshes. Where it tells none,
/// nothing is claimed of its answers. Its count of faults, a `u64` that stops at its last value, rises exactly where a call
/// answers [`Asked::Failed`].
pub trait Authority: Drop {
    /// The value, where it is told.
    ghost tells: { Self → Option Telling };

    /// The faults so far.
    ghost faults: { Self → ℕ };

    /// Whether the host is the home of the DID.
    fn home(&mut self, did: &str, host: &str) -> Result<bool, Asked>
        ensures says { IfOk result (Says (tells self.old) (asks_home did.now host.now)) }
        ensures kept { tells self.new ≡ tells self.old }
        ensures counted { CountsFailure result (faults self.old) (faults self.new) };

    /// Whether the signature under a digest, the SHA-256 of what was signed, is good for the DID.
    fn verdict(&mut self, did: &str, digest: &[u8; 32], sig: &[u8]) -> Result<bool, Asked>
        ensures says { IfOk result
            (Says (tells self.old) (asks_verdict did.now digest.now sig.now)) }
        ensures kept { tells self.new ≡ tells self.old }
        ensures counted { CountsFailure result (faults self.old) (faults self.new) };

    /// Looks up anew what it knows of the DID.
    fn refresh(&mut self, did: &str) -> Result<(), Asked>
        ensures refreshed { OnOk result
            (tells self.new ≡ option_map (refreshed did.now) (tells self.old)) }
        ensures kept { OnErr result (tells self.new ≡ tells self.old) }
        ensures counted { CountsFailure result (faults self.old) (faults self.new) };
}
