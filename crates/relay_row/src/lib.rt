//! The rows of a relay's journal: what they say, which are well formed, what they come to, and the order in which they stand.
#![tactic(auto)]

mod carried;
mod copying;
mod fetched;
mod laws;
mod limits;
mod new_row;
mod operated;
mod row;
mod rules;
mod taken;

pub use carried::{Carried, CarriedAccount, CarriedRepo};
pub use fetched::{Fetched, Whole};
pub use laws::{folds_join, journals_grow, rows_are_tested};
pub use limits::{MOST_ROWS, PLACES};
pub use new_row::NewRow;
pub use operated::Operated;
pub use row::Row;
pub use rules::{is_row, loses};
pub use taken::{Effect, Taken};
