//! What comes next for a message.

use crate::answers::Question;
use at_event::Refusal;

/// Why a message makes no row.
#[derive(Clone, Copy, Debug, PartialEq, Eq)]
pub enum Pass {
    /// It doesn't stand above the host's cursor.
    Old,
    /// It is of a kind that the relay doesn't know.
    Unknown,
    /// It is a remark of the host.
    Info,
    /// The host ends its stream.
    Ended,
}

/// What is decided of a message that makes a row.
#[derive(Clone, Copy, Debug, PartialEq, Eq)]
pub struct Decision {
    /// Why it is refused, if it is.
    pub refusal: Option<Refusal>,
    /// Whether it is accepted and doesn't go out.
    pub held: bool,
    /// Whether its row takes the next number.
    pub gives: bool,
}

/// What comes next for a message.
#[derive(Clone, Copy, Debug, PartialEq, Eq)]
pub enum Next {
    /// This is to be asked.
    Ask(Question),
    /// It makes no row.
    Pass(Pass),
    /// It is decided.
    Done(Decision),
}
