//! Where requests come from that are answered one by one.
ghost use Rattle.std.specs.Prelude.{◌≡◌, ◌≤◌, ◌++◌, ◌∷◌, [], List, ℕ, Bool, length, IsTrue, IfOk, OnOk, OnErr, IsErrOf};
ghost use Rattle.at_cid.specs.Counts.{Rose};
ghost use Rattle.relay_io.specs.Exchanges.{came};
ghost use Rattle.relay_io.specs.Messages.{Gives};
ghost use Rattle.relay_io.specs.declared.wire.Exchange.{Exchange};
ghost use Rattle.relay_io.specs.declared.wire.TheConstants.{LONGEST_REQUEST};
ghost use Rattle.relay_io.specs.declared.wire.WireFault.{WireFault};

use crate::Failed;
use at_cid::{Memory, Octets};
use thiserror::Error;

/// The most bytes of a request (own limit).
pub const LONGEST_REQUEST: usize = 8_192;

/// What happened on a wire.
#[derive(Debug, Drop)]
pub enum Exchange {
    /// This request came.
    Came(Octets),
    /// The request that waited was sent this reply, and its connection was closed.
    Sent(Octets),
}

/// Why a wire gave no request.
#[derive(Clone, Copy, Debug, PartialEq, Eq, Error)]
pub enum WireFault {
    /// A call of the wire failed.
    #[error("the wire failed")]
    Failed,
    /// There was no memory.
    #[error("out of memory")]
    Memory,
}

impl From<Failed> for WireFault {
    ghost use Rattle.relay_io.specs.declared.wire.WireFault.{WireFault};

    ghost from_gives = { λ _ e. e ≡ WireFault.Failed };

    fn from(_e: Failed) -> WireFault {
        WireFault::Failed
    }
}

impl From<Memory> for WireFault {
    ghost use Rattle.relay_io.specs.declared.wire.WireFault.{WireFault};

    ghost from_gives = { λ _ e. e ≡ WireFault.Memory };

    fn from(_e: Memory) -> WireFault {
        WireFault::Memory
    }
}

/// A wire on which one request waits for its reply at a time.
pub trait Wire {
    /// Whether the requests and the replies are told.
    ghost tells: { Bool };

    /// The requests to come.
    ghost requests: { Self → List (List ℕ) };

    /// What happened so far: which requests came, and what each was sent.
    ghost exchanges: { Self → List Exchange };

    /// The faults of `next` so far.
    ghost faults: { Self → ℕ };

    /// The faults of `send` so far.
    ghost send_faults: { Self → ℕ };

    /// Puts the bytes of the next request in the room, in place of what was there, and is false at the end. A request
    /// that still waited gets no reply. After a false or a fault nothing is said of the room.
    fn next(&mut self, room: &mut Octets) -> Result<bool, WireFault>
        ensures given { IfOk result (λ more. IsTrue tells
            → Gives more room.new (requests self.old) (requests self.new)) }
        ensures came { IfOk result (λ more. IsTrue tells
            → exchanges self.new ≡ exchanges self.old ++ came more room.new) }
        ensures within { IfOk result (λ more. IsTrue more → length room.new ≤ LONGEST_REQUEST) }
        ensures kept { OnErr result (IsTrue tells
            → (requests self.new ≡ requests self.old) × (exchanges self.new ≡ exchanges self.old)) }
        ensures counts { faults self.old ≤ faults self.new }
        ensures steady { OnOk result (faults self.new ≡ faults self.old) }
        ensures no_fault { IsErrOf result WireFault.Memory → faults self.new ≡ faults self.old }
        ensures send_counts { send_faults self.new ≡ send_faults self.old }
        ensures failed { IsErrOf result WireFault.Failed
            → Rose (faults self.old) (faults self.new) };

    /// Sends a reply to the request that waits, and closes its connection. It takes no memory.
    fn send(&mut self, reply: &[u8]) -> Result<(), Failed>
        ensures sent { OnOk result (IsTrue tells
            → exchanges self.new ≡ exchanges self.old ++ Exchange.Sent reply.now ∷ []) }
        ensures kept { OnErr result (IsTrue tells → exchanges self.new ≡ exchanges self.old) }
        ensures same { IsTrue tells → requests self.new ≡ requests self.old }
        ensures counts { faults self.new ≡ faults self.old }
        ensures send_counts { send_faults self.old ≤ send_faults self.new }
        ensures steady { OnOk result (send_faults self.new ≡ send_faults self.old) }
        ensures failed { OnErr result (Rose (send_faults self.old) (send_faults self.new)) };
}
