//! What a relay decides of a message, and the state by which it decides: a pure decision, which
//! asks for what it needs to know one question at a time.
#![tactic(auto)]

mod answers;
mod deciding;
mod decision;
mod following;
mod journal_state;
mod laws;
mod limits;
mod made_row;
mod operating;
mod stage;
mod standing;
mod state;

pub use answers::{Answers, Question};
pub use deciding::{is_ahead, next_for_event_of_len};
pub use decision::{Decision, Next, Pass};
pub use journal_state::Core;
pub use laws::{
    asks_once, blocks_return, entries_are_accounts, next_decides, ready_decides, rows_show,
    worlds_run,
};
pub use limits::{FETCHED_AHEAD, FETCHED_UNSIGNED, LONGEST_MESSAGE, MOST_AHEAD};
pub use made_row::goes_out;
pub use operating::fetch_refusal;
