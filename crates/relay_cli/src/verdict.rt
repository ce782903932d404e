//! What a message comes to.
ghost use Rattle.std.specs.Prelude.{◌≡◌};
ghost use Rattle.relay_cli.specs.Statuses.{status_of};

use at_cid::Cid;
use at_event::Refusal;
use run_base::Status;

/// What a message comes to by itself.
#[derive(Clone, Copy, Debug, PartialEq, Eq)]
pub enum CheckVerdict {
    /// A commit: the number of its operations, the root that they lead from, and the root that they lead to.
    Accepted(Cid, Cid, u32),
    /// A message that is refused.
    Refused(Refusal),
}

impl CheckVerdict {
    /// How a run ends that came to it and wrote its line.
    pub fn status(&self) -> Status
        ensures { result ≡ status_of self.now }
    {
        match self {
            CheckVerdict::Accepted(_, _, _) => Status::Done,
            CheckVerdict::Refused(refusal) => Status::Refused(refusal.code()),
        }
    }
}
