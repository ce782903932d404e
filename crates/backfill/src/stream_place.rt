//! How far the messages that follow a cursor were given.

/// How far the messages that follow a cursor were given.
#[derive(Clone, Copy, Debug, PartialEq, Eq)]
pub enum StreamPlace {
    /// None was, behind this cursor.
    Start(u64),
    /// All up to the event of this number were.
    Behind(u64),
    /// All were.
    End,
}
