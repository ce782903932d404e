//! What an operator's command comes to.

use at_event::Refusal;
use relay_row::Row;

/// What an operator's command comes to.
#[derive(Debug, Drop)]
pub enum CommandAnswer {
    /// It is refused.
    Refused(Refusal),
    /// It makes this row.
    Made(Row),
}
