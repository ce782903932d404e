//! A link in binary: what kind of block it names, and the block's digest.

ghost use Rattle.std.specs.Prelude.{◌≡◌, ◌↔◌, IsTrue, Some, nat_eq, refl, take, drop};
ghost use Rattle.std.specs.Cmp.{partial_equiv_from_equiv};
ghost use Rattle.std.specs.Cmp.Lexicographic.{nat_list_eq_equiv, pointwise};
ghost use Rattle.std.specs.Int.{w64, from_be_bytes};
ghost use Rattle.at_cid.specs.Link.{is_link, IsBytes, cid, link_at, kind_of, digest_of};
ghost use Rattle.at_cid.specs.Order.{key_cmp};
ghost use Rattle.at_cid.specs.OrderLaws.{key_po, key_total, key_ties};
ghost use Rattle.sha2.specs.Sha256.{sha256};

use crate::comparing::compare;
use crate::ghost_facts::ghost_bytes;
use sha2::{Digest, Sha256};
use std::cmp::Ordering;
use std::marker::Model;

/// How many bytes a link has.
pub const LINK_LEN: usize = 36;

/// How many bytes its digest has, which is its end.
pub const DIGEST_LEN: usize = 32;

/// What a link names.
#[derive(Clone, Copy, Debug, PartialEq, Eq)]
pub enum Kind {
    /// An object in DAG-CBOR.
    Node,
    /// Bytes as they are.
    Raw,
}

/// A link (CIDv1, SHA-256), seen in contracts as its 36 bytes, by which links are also ordered.
#[derive(Clone, Copy, Debug)]
pub struct Cid {
    bytes: [u8; LINK_LEN],
}

impl Model for Cid {
    ghost use Rattle.std.specs.Prelude.{List, ℕ, IsTrue};
    ghost use Rattle.at_cid.specs.Link.{is_link};

    ghost Value = { List ℕ };

    ghost view = { λ a. a.bytes };

    ghost invariant = { λ a. IsTrue (is_link a.bytes) };

    ghost inverse = { λ bytes. record { bytes = bytes } };
}

impl PartialEq for Cid {
    ghost eq = { pointwise nat_eq };

    ghost laws = { partial_equiv_from_equiv nat_list_eq_equiv };

    #[inline]
    fn eq(&self, other: &Cid) -> bool {
        self.bytes == other.bytes
    }
}

impl Eq for Cid {
    ghost laws = { nat_list_eq_equiv };
}

impl PartialOrd for Cid {
    ghost partial_cmp = { λ a b. Some (key_cmp a b) };

    ghost laws = { key_po };

    #[inline]
    fn partial_cmp(&self, other: &Cid) -> Option<Ordering> {
        Some(self.cmp(other))
    }
}

impl Ord for Cid {
    ghost cmp = { key_cmp };

    ghost total = { key_total };

    ghost matches_partial_cmp = { λ a b. refl };

    ghost matches_eq = { key_ties };

    // Links of one kind differ in their digests alone, and mostly in the first eight bytes of these.
    #[inline]
    fn cmp(&self, other: &Cid) -> Ordering {
        if self.bytes[1] != other.bytes[1] {
            return compare(&self.bytes, &other.bytes);
        }
        let (a, b) = (front_of(&self.bytes), front_of(&other.bytes));
        if a != b {
            return a.cmp(&b);
        }
        compare(self.digest(), other.digest())
    }
}

// The number that the first eight bytes of a link's digest encode, the greatest first.
#[inline]
fn front_of(link: &[u8; LINK_LEN]) -> u64
    ensures value { result ≡ from_be_bytes w64 (take 8 (drop 4 link.now)) }
    ensures bytes { IsBytes link.now }
{
    ghost_bytes(link);
    u64::from_be_bytes([
        link[4], link[5], link[6], link[7], link[8], link[9], link[10], link[11],
    ])
}

/// The link of kind Node over a block, whose SHA-256 (FIPS 180-4) is taken once. Takes no memory.
#[tactic(auto, unfolding(crate::specs::Link::cid))]
pub fn cid_of(block: &[u8]) -> Cid
    ensures { result ≡ cid block.now }
{
    let digest = Sha256::digest(block);
    let mut bytes = [0; LINK_LEN];
    bytes[..4].copy_from_slice(&[0x01, 0x71, 0x12, 0x20]);
    bytes[4..].copy_from_slice(&digest);
    Cid { bytes }
}

/// The link in the first 36 bytes, where they are one.
#[tactic(auto, using(crate::proofs::Links::link_at_short))]
#[inline]
pub fn parse_binary(bytes: &[u8]) -> Option<Cid>
    ensures { result ≡ link_at bytes.now }
{
    let Some((front, _)) = bytes.split_first_chunk::<LINK_LEN>() else {
        return None;
    };
    match front {
        [0x01, 0x71 | 0x55, 0x12, 0x20, ..] => Some(Cid { bytes: *front }),
        _ => None,
    }
}

impl Cid {
    /// The 36 bytes.
    #[inline]
    pub fn as_bytes(&self) -> &[u8; LINK_LEN]
        ensures value { result.now ≡ self.now }
        ensures link { IsTrue (is_link self.now) }
        ensures bytes { IsBytes self.now }
    {
        ghost_bytes(&self.bytes);
        &self.bytes
    }

    /// What it names.
    #[inline]
    pub fn kind(&self) -> Kind
        ensures { result ≡ kind_of self.now }
    {
        if self.bytes[1] == 0x71 {
            Kind::Node
        } else {
            Kind::Raw
        }
    }

    /// The 32 bytes of digest.
    #[inline]
    pub fn digest(&self) -> &[u8]
        ensures { result.now ≡ digest_of self.now }
    {
        self.bytes.split_at(4).1
    }

    /// Whether its digest is the block's SHA-256, which is taken once. Takes no memory.
    #[inline]
    pub fn is_of(&self, block: &[u8]) -> bool
        ensures { IsTrue result ↔ (digest_of self.now ≡ sha256 block.now) }
    {
        let expected = Sha256::digest(block);
        self.digest() == expected.as_slice()
    }
}
