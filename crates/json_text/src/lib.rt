//! JSON texts without blanks (RFC 8259): values that are put together member by member, and the
//! bytes of their texts.
#![tactic(auto)]

mod laws;
mod members;
mod writing;

pub use laws::texts_are_written;
pub use members::{no_members, put_some_text, put_text, put_value};
pub use writing::bytes_of;
