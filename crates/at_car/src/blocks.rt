//! Blocks under their links.

ghost use Rattle.std.specs.Prelude.{◌≡◌, ℕ, List, option_map, IfSome, OnOk, OnErr};
ghost use Rattle.std.specs.FinMap as map;
ghost use Rattle.std.specs.List.{All};
ghost use Rattle.sha2.specs.Sha256.{sha256};
ghost use Rattle.at_cid.specs.Link.{digest_of, IsBytes};
ghost use Rattle.at_car.specs.Blocks.{kept, AreLinked};
ghost use Rattle.at_car.specs.Entries.{AreInOrder};
ghost use Rattle.at_car.specs.Places.{IsLaid, blocks_at};

use crate::entry::{ScanEntry, find, seek};
use crate::iterating::BlockIter;
use crate::place::{bytes_at, lay};
use at_cid::{Cid, Memory, Octets, ghost_link};
use std::alloc::Global;
use std::marker::Model;

/// Blocks, each under a link of it, in ascending order of the links.
///
/// Contracts see a finite map from links to blocks. A look-up compares links, as many as the
/// logarithm of the number of blocks; it neither hashes nor copies. All blocks lie in one buffer of
/// less than 2^32 bytes.
#[derive(Drop)]
pub struct Blocks {
    buffer: Octets,
    entries: Vec<ScanEntry>,
}

impl Model for Blocks {
    ghost use Rattle.std.specs.Prelude.{List, ℕ};
    ghost use Rattle.std.specs.FinMap as finite;
    ghost use Rattle.std.specs.Coded.{coded_list, coded_ℕ};
    ghost use Rattle.std.specs.List.{All};
    ghost use Rattle.at_cid.specs.Order.{key_cmp};
    ghost use Rattle.at_car.specs.Entries.{AreInOrder};
    ghost use Rattle.at_car.specs.Places.{IsLaid, blocks_at};

    ghost Value = { finite.FinMap key_cmp (List ℕ) };

    ghost coded = { finite.code (coded_list coded_ℕ) (coded_list coded_ℕ) };

    ghost view = { λ a. blocks_at a.buffer a.entries.items };

    ghost invariant = { λ a. All (IsLaid a.buffer) a.entries.items × AreInOrder a.entries.items };
}

impl Blocks {
    /// No blocks.
    pub fn new(alloc: Global) -> Blocks
        ensures { result ≡ map.empty }
    {
        Blocks {
            buffer: Octets::new(alloc),
            entries: Vec::new(alloc),
        }
    }

    /// The blocks at the places of links, which ascend.
    pub(crate) fn of(buffer: Octets, entries: Vec<ScanEntry>) -> Blocks
        requires laid { All (IsLaid buffer) entries.items }
        requires order { AreInOrder entries.items }
        ensures { result ≡ blocks_at buffer entries.items }
    {
        Blocks { buffer, entries }
    }

    /// How many blocks there are.
    pub fn len(&self) -> usize
        ensures { result ≡ map.len self.now }
    {
        self.entries.as_slice().len()
    }

    /// The block under a link.
    #[inline]
    pub fn get(&self, cid: &Cid) -> Option<&[u8]>
        ensures is { option_map (λ block. block.now) result ≡ map.get self.now cid.now }
        ensures bytes { IfSome result (λ block. IsBytes block.now) }
        ensures linked { AreLinked self.now }
    {
        match find(self.entries.as_slice(), cid) {
            Some(place) => Some(bytes_at(self.buffer.as_slice(), &place)),
            None => None,
        }
    }

    /// The links and their blocks, in ascending order of the links.
    pub fn iter(&self) -> BlockIter<'_>
        ensures rest { result ≡ map.entries self.now }
        ensures linked { AreLinked self.now }
    {
        BlockIter {
            buffer: self.buffer.as_slice(),
            entries: self.entries.as_slice(),
        }
    }

    /// Puts a block under a link of it. A link that is there keeps its block. The entries of all higher links move.
    pub fn put(&mut self, cid: Cid, block: &[u8]) -> Result<(), Memory>
        requires { digest_of cid ≡ sha256 block.now }
        ensures ok { OnOk result (self.new ≡ kept self.old cid block.now) }
        ensures err { OnErr result (self.new ≡ self.old) }
    {
        ghost_link(&cid);
        match seek(self.entries.as_slice(), &cid) {
            Ok(_) => Ok(()),
            Err(index) => {
                let place = lay(&mut self.buffer, block)?;
                self.entries.insert(index, ScanEntry { link: cid, place })?;
                Ok(())
            }
        }
    }

    /// Does nothing when it runs: each block stands under a link of it, for the prover.
    #[inline]
    pub fn ghost_linked(&self)
        ensures { AreLinked self.now }
    {
        let _ = &self.entries;
    }
}
