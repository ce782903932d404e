//! The one encoding of the rows of a relay's journal, in DAG-CBOR: bodies of rows are written and read. The format is the relay's
//! own.
#![tactic(auto)]

mod body_rows;
mod fault;
mod items;
mod laws;
mod parts;
mod reader;
mod reading;
mod rows;
mod table;
mod writing;

pub use body_rows::BodyRows;
pub use fault::RowFault;
pub use laws::{bodies_tell_rows, rows_join};
pub use reading::read_rows;
pub use rows::Rows;
pub use writing::{write_encoded, write_new_row, write_row, write_rows};
