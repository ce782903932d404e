//! What is answered to a message.

use at_event::Refusal;

/// What became of the fetch that followed a refusal.
#[derive(Clone, Copy, Debug, PartialEq, Eq)]
pub enum Fetch {
    /// None was asked for.
    NotAsked,
    /// There is no repository.
    Absent,
    /// The repository was refused, with this number.
    Refused(u8),
    /// The repository was taken over: the number of its event, and how many records there are.
    Whole(u64, u64),
}

/// Why a host has ended.
#[derive(Clone, Copy, Debug, PartialEq, Eq)]
pub enum End {
    /// It sent a message that is no frame.
    BadFrame,
    /// It sent an event without a number.
    NoSeq,
    /// It said so.
    Error,
}

/// What is answered to a message. The first number is that of the message in its host's stream.
#[derive(Clone, Copy, Debug, PartialEq, Eq)]
pub enum Outcome {
    /// It is accepted, and goes out under the second number.
    Event(u64, u64),
    /// It is accepted, and doesn't go out.
    Held(u64),
    /// It is refused, and this became of the fetch that followed.
    Refused(u64, Refusal, Fetch),
    /// It doesn't stand above the host's cursor.
    Old(u64),
    /// It is of a kind that the relay doesn't know.
    Unknown,
    /// It is a remark of the host.
    Info,
    /// The host has ended.
    Ended(End),
}
