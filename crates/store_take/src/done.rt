//! What is answered to an operator.

use at_event::Refusal;

/// What is answered to an operator's command.
#[derive(Clone, Copy, Debug, PartialEq, Eq)]
pub enum Done {
    /// It goes out under this number.
    Event(u64),
    /// The repository was taken over: the number of its event, and how many records there are.
    Synced(u64, u64),
    /// The word is refused.
    Refused(Refusal),
}
