//! The kinds of messages.

/// The kind of an event.
#[derive(Clone, Copy, Debug, PartialEq, Eq)]
pub enum EventKind {
    /// `#commit`
    Commit,
    /// `#sync`
    Sync,
    /// `#identity`
    Identity,
    /// `#account`
    Account,
}

/// What a header announces.
#[derive(Clone, Copy, Debug, PartialEq, Eq)]
pub enum Heading {
    /// An event.
    Event(EventKind),
    /// A remark of the host.
    Info,
    /// The end of the stream.
    Error,
    /// A message of another kind.
    Unknown,
}
