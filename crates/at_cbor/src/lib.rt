//! DAG-CBOR: values, and their one encoding in bytes. What is read is exactly what is encoded so, and each input that no
//! value begins has one fault at one place.
#![tactic(auto)]

mod copying;
mod decoding;
mod encoder;
mod equality;
mod fault;
mod head;
mod kinds;
mod laws;
mod length;
mod limits;
mod lookup;
mod major;
mod reader;
mod reading;
mod taking;
mod value;
mod writing;

pub use decoding::{DEPTH, decode};
pub use encoder::encode;
pub use fault::CborFault;
pub use laws::{encoding_tells_item, equal_is_same, reads_what_is_encoded, takes_what_is_encoded};
pub use length::{encoded_len, front_len, string_len};
pub use limits::INTEGERS;
pub use lookup::field;
pub use major::Major;
pub use taking::{
    decode_whole, take_argument, take_behind, take_bytes, take_child, take_item, take_link,
    take_list_front, take_number, take_text,
};
pub use value::{Fields, Value, Values};
pub use writing::{
    write_bool, write_bytes, write_int, write_link, write_list_front, write_map_front, write_null,
    write_number, write_text, write_value,
};
