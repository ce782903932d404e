//! Blocks that are hashed in pieces as they are encoded.

ghost use Rattle.std.specs.Prelude.{◌≡◌, ◌≤◌, ◌++◌, List, ℕ, length, take, drop};
ghost use Rattle.at_cid.specs.Link.{cid, prefix_of};
ghost use Rattle.at_cid.specs.declared.cid.Kind.{Kind};
ghost use Rattle.mst_view.specs.Pieces.{IsInPieces};
ghost use Rattle.sha2.specs.Hashers.{Holds256};

use at_cid::{Cid, DIGEST_LEN, LINK_LEN, Octets, parse_binary};
use sha2::{Digest, Sha256};

/// How many bytes a room may hold before a hasher is given what lies there of its block.
pub(crate) const PIECE: usize = 1 << 14;

/// Gives the hasher what lies in the room from a place on, and cuts it off. Takes no memory.
pub(crate) fn hand_over(room: &mut Octets, start: usize, hash: &mut Sha256)
    requires { start ≤ length room.old }
    ensures room { room.new ≡ take start room.old }
    ensures hash { (given : List ℕ) → Holds256 hash.old given
        → Holds256 hash.new (given ++ drop start room.old) }
{
    hash.update(room.as_slice().split_at(start).1);
    room.truncate(start);
}

/// The same where the room holds more than [`PIECE`]: so it stays small, however long a block is, and however many of them
/// are encoded one behind the other.
#[inline]
pub(crate) fn hand_over_piece(room: &mut Octets, start: usize, hash: &mut Sha256)
    requires { start ≤ length room.old }
    ensures { (before bytes : List ℕ) → start ≡ length before
        → IsInPieces before hash.old room.old bytes → IsInPieces before hash.new room.new bytes }
{
    if room.len() > PIECE {
        hand_over(room, start, hash);
    }
}

/// The bytes of the link of kind Node with a digest.
fn link_bytes(digest: &[u8; DIGEST_LEN]) -> [u8; LINK_LEN]
    ensures { result ≡ prefix_of Kind.Node ++ digest.now }
{
    let mut bytes = [0; LINK_LEN];
    bytes[..4].copy_from_slice(&[0x01, 0x71, 0x12, 0x20]);
    bytes[4..].copy_from_slice(digest);
    bytes
}

/// The link of kind Node with a digest.
#[tactic(auto, using(crate::proofs::Pieces::link_made))]
fn link_under(digest: &[u8; DIGEST_LEN]) -> Cid
    ensures { result ≡ prefix_of Kind.Node ++ digest.now }
{
    let Some(link) = parse_binary(&link_bytes(digest)) else {
        unreachable!()
    };
    link
}

/// The link of kind Node over the block that the hasher was given. Takes no memory.
#[tactic(auto, unfolding(at_cid::specs::Link::cid))]
pub(crate) fn hashed_link(hash: Sha256) -> Cid
    ensures { (block : List ℕ) → Holds256 hash block → result ≡ cid block }
{
    link_under(&hash.finalize())
}
