//! The links of nodes.

ghost use Rattle.std.specs.Prelude.{◌≡◌, IfOk, OnOk};
ghost use Rattle.at_cid.specs.Link.{cid};
ghost use Rattle.mst_node.specs.Trees.{encode_layer};

use crate::branch::{Below, Branch};
use crate::hashing::{PIECE, hand_over, hand_over_piece, hashed_link};
use at_cid::{Cid, Memory, Octets};
use mst_list::MOST_KEY_BYTES;
use mst_node::{EntryRef, write_end, write_entry, write_front};
use sha2::{Digest, Sha256};
use std::alloc::Global;

/// The most bytes of an entry beside its key: a map with four names, the head of a key, a number and two links.
const MOST_ENTRY_BYTES: usize = 97;
/// Room for what may lie there before it is hashed, and an entry more.
const MOST_ROOM: usize = PIECE + MOST_KEY_BYTES + MOST_ENTRY_BYTES;
/// The least number of keys that aren't few.
const MANY_KEYS: usize = 16;
/// Room for ordinary nodes of few keys that are encoded one behind the other.
const ORDINARY_ROOM: usize = 1 << 12;

/// Room for the blocks of a node with so many keys and of the nodes below it. Takes no memory.
fn room_for(count: usize) -> usize {
    if count < MANY_KEYS {
        ORDINARY_ROOM
    } else {
        MOST_ROOM
    }
}

impl Branch {
    /// The link of the node's block. Only nodes whose link isn't known are encoded, their keys lent, all in one room, and
    /// long blocks are hashed in pieces.
    pub fn link_of(&self, alloc: Global) -> Result<Cid, Memory>
        ensures { IfOk result (λ link. link ≡ cid (encode_layer self.now.layer self.now.items)) }
    {
        if let Some(link) = self.link {
            return Ok(link);
        }
        let mut room = Octets::from_vec(Vec::with_capacity(alloc, room_for(self.rest.len()))?);
        self.link_behind(&mut room)
    }

    // The same. What is encoded lies behind what the room holds, and is cut off again: so the blocks of the nodes below are
    // encoded behind the part of this node's block that is there. Mostly that is the whole block, which is hashed at once.
    fn link_behind(&self, room: &mut Octets) -> Result<Cid, Memory>
        ensures link { IfOk result
            (λ link. link ≡ cid (encode_layer self.now.layer self.now.items)) }
        ensures room { OnOk result (room.new ≡ room.old) }
    {
        if let Some(link) = self.link {
            return Ok(link);
        }
        let start = room.len();
        let left = match &self.first {
            Below::Empty => None,
            Below::Hole(link) => Some(*link),
            Below::Tree(child) => Some(child.link_behind(room)?),
        };
        let mut hash = Sha256::new();
        let parts = self.rest.as_slice();
        write_front(room, parts.len())?;
        let mut last: &[u8] = &[];
        for part in parts {
            let right = match &part.below {
                Below::Empty => None,
                Below::Hole(link) => Some(*link),
                Below::Tree(child) => Some(child.link_behind(room)?),
            };
            let entry = EntryRef {
                key: part.key.as_slice(),
                value: part.value,
                right,
            };
            write_entry(room, last, &entry)?;
            hand_over_piece(room, start, &mut hash);
            last = part.key.as_slice();
        }
        write_end(room, &left)?;
        hand_over(room, start, &mut hash);
        Ok(hashed_link(hash))
    }
}
