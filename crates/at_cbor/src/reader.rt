//! Bytes that are read from left to right.

ghost use Rattle.std.specs.Prelude.{◌≡◌, ◌∷◌, ◌<◌, ◌≤◌, [], length, take, drop, MatchOption, Ok};
ghost use Rattle.at_cbor.specs.Heads.{head_at};
ghost use Rattle.at_cbor.specs.declared.head.Head.{Head};
ghost use Rattle.at_cbor.specs.declared.fault.Stop.{Stop};

use crate::fault::{Cause, Stop};
use crate::taking::take_link;
use at_cid::{Cid, ghost_bytes};

/// The bytes that are still to be read, and how many there were where the last head begins.
#[derive(Debug, Drop)]
pub(crate) struct ByteReader<'a> {
    rest: &'a [u8],
    left: usize,
}

impl<'a> ByteReader<'a> {
    /// Nothing was read yet.
    #[inline]
    pub(crate) fn new(bytes: &'a [u8]) -> ByteReader<'a>
        ensures rest { result.rest.now ≡ bytes.now }
        ensures left { result.left ≡ length bytes.now }
    {
        ByteReader {
            rest: bytes,
            left: bytes.len(),
        }
    }

    /// A head begins here.
    #[inline]
    pub(crate) fn mark(&mut self)
        ensures rest { self.new.rest.now ≡ self.old.rest.now }
        ensures left { self.new.left ≡ length self.old.rest.now }
    {
        self.left = self.rest.len();
    }

    /// The next byte.
    #[inline]
    pub(crate) fn byte(&mut self) -> Option<u8>
        ensures byte { MatchOption result
            (self.old.rest.now ≡ []) (λ byte. self.old.rest.now ≡ byte ∷ self.new.rest.now) }
        ensures left { self.new.left ≡ self.old.left }
    {
        let [byte, rest @ ..] = self.rest else {
            return None;
        };
        self.rest = rest;
        Some(*byte)
    }

    /// How many bytes the text at the front has, where its head is one byte: that byte is read.
    #[inline]
    pub(crate) fn short_text(&mut self) -> Option<u64>
        ensures { MatchOption result
            ((self.new.rest.now ≡ self.old.rest.now) × (self.new.left ≡ self.old.left))
            (λ count. (head_at self.old.rest.now ≡ Ok (Head.Text count, self.new.rest.now))
            × (self.new.left ≡ length self.old.rest.now)) }
    {
        let [first, rest @ ..] = self.rest else {
            return None;
        };
        if *first < 0x60 || 0x77 < *first {
            return None;
        }
        self.left = self.rest.len();
        self.rest = rest;
        Some(u64::from(*first - 0x60))
    }

    /// The link at the front, behind its tag, where one is: that is read.
    #[tactic(auto, using(crate::proofs::ShortTexts::link_head))]
    #[inline]
    pub(crate) fn link(&mut self) -> Option<Cid>
        ensures { MatchOption result
            ((self.new.rest.now ≡ self.old.rest.now) × (self.new.left ≡ self.old.left))
            (λ link. (head_at self.old.rest.now ≡ Ok (Head.Link link, self.new.rest.now))
            × (self.new.left ≡ length self.old.rest.now)) }
    {
        let Some((link, rest)) = take_link(self.rest) else {
            return None;
        };
        ghost_bytes(self.rest);
        self.left = self.rest.len();
        self.rest = rest;
        Some(link)
    }

    /// The next bytes, as an array.
    #[inline]
    pub(crate) fn take<const N: usize>(&mut self) -> Option<[u8; N]>
        ensures bytes { MatchOption result
            (length self.old.rest.now < N) (λ bytes. (N ≤ length self.old.rest.now)
            × (bytes ≡ take N self.old.rest.now) × (self.new.rest.now ≡ drop N self.old.rest.now)) }
        ensures left { self.new.left ≡ self.old.left }
    {
        let (bytes, rest) = self.rest.split_first_chunk::<N>()?;
        self.rest = rest;
        Some(*bytes)
    }

    /// So many of the next bytes.
    #[inline]
    pub(crate) fn sub(&mut self, count: usize) -> Option<&'a [u8]>
        ensures bytes { MatchOption result (length self.old.rest.now < count) (λ bytes.
            (count ≤ length self.old.rest.now) × (bytes.now ≡ take count self.old.rest.now)
            × (self.new.rest.now ≡ drop count self.old.rest.now)) }
        ensures left { self.new.left ≡ self.old.left }
    {
        if self.rest.len() < count {
            return None;
        }
        let (bytes, rest) = self.rest.split_at(count);
        self.rest = rest;
        Some(bytes)
    }

    /// The bytes that are still to be read.
    #[inline]
    pub(crate) fn rest(&self) -> &'a [u8]
        ensures { result.now ≡ self.now.rest.now }
    {
        self.rest
    }

    /// What is wrong with the last head.
    pub(crate) fn flaw(&self, cause: Cause) -> Stop
        ensures { result ≡ Stop.At cause self.now.left }
    {
        Stop::At(cause, self.left)
    }
}
