//! The names of the AT Protocol: DIDs, record paths, host names and TIDs.
#![tactic(auto)]

mod characters;
mod did;
mod host;
mod laws;
mod path;
mod tid;

pub use did::{LONGEST_DID, did_ok, method};
pub use host::{LONGEST_HOST, host_ok};
pub use laws::{texts_are_tids, tids_order_as_texts, written_tids_are_read};
pub use path::{LONGEST_COLLECTION, LONGEST_RECORD_KEY, collection_ok, path_ok};
pub use tid::{TID_LEN, Tid};
