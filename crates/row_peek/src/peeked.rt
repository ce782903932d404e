//! What is seen of a row.

/// What is seen of a row that sends an event out, lent by the bytes that it stands in.
#[derive(Clone, Copy, Debug)]
pub struct Peeked<'a> {
    /// The account that it names.
    pub did: &'a str,
    /// Whether the event is of a commit or a sync.
    pub of_repo: bool,
    /// The event's number.
    pub seq: u64,
    /// The event's message.
    pub message: &'a [u8],
}
