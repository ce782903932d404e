//! Requests over HTTP/1.x (RFC 9112): the request line, the two parts of its target, and the values
//! that its query names.
#![tactic(auto)]

mod head;
mod number;
mod query;

pub use head::{MOST_HEADERS, RequestLine, parts_of, request_line};
pub use number::number_in;
pub use query::value_of;
