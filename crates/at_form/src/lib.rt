//! The forms that fields of objects and events have: a DID, a TID, a link of kind Node, a short text, a number.
#![tactic(auto)]

mod fields;
mod forms;

pub use fields::{given, optional_link, optional_node, optional_tid};
pub use forms::{LONGEST_SHORT_TEXT, did, node, number, short_text, tid};
