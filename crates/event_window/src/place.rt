//! The place of an event.

/// Where the row of an event stands in a log.
#[derive(Clone, Copy, Debug, PartialEq, Eq)]
pub struct Place {
    /// The event's number.
    pub seq: u64,
    /// The place of the body that has the row: that of its gate, in bytes.
    pub place: u64,
    /// The row's index in the body.
    pub index: u8,
}
