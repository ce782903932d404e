//! What a message came to.

/// What a message came to.
#[derive(Clone, Copy, Debug, PartialEq, Eq)]
pub enum Step {
    /// The event's account has a map of so many records.
    Held(u64),
    /// The event's account waits until a `#sync` states its repository anew.
    Waiting,
    /// The message changes no repository: an identity or account event, or an `#info`.
    Passed,
}
