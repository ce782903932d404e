//! Links in binary and as text, and the small types that every crate stands on: bytes, texts, lists of links, the
//! running out of memory, and the failing calls of objects in memory.
#![tactic(auto)]

mod cid;
mod cids;
mod comparing;
mod failures;
mod ghost_facts;
mod laws;
mod limits;
mod memory;
mod octets;
mod short_text;
mod text;
mod words;

pub use cid::{Cid, DIGEST_LEN, Kind, LINK_LEN, cid_of, parse_binary};
pub use cids::Cids;
pub use comparing::compare;
pub use failures::Failures;
pub use ghost_facts::{
    ghost_bytes, ghost_link, ghost_link_or_none, ghost_text, ghost_text_or_none,
};
pub use laws::text_tells_link;
pub use limits::NUMBERS;
pub use memory::Memory;
pub use octets::Octets;
pub use short_text::MOST_SHORT_BYTES;
pub use text::{TEXT_LEN, link_text, parse_text};
pub use words::Words;
