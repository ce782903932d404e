//! The blocks of a map, one after the other.

ghost use Rattle.std.specs.Prelude.{◌≡◌, length, map};
ghost use Rattle.std.specs.Iterator.{at_most};
ghost use Rattle.std.specs.List.{All};
ghost use Rattle.std.specs.Map.Iter.{TakesFirst, deref_pair};
ghost use Rattle.at_car.specs.Places.{laid, IsLaid};

use crate::entry::ScanEntry;
use crate::place::bytes_at;
use at_cid::Cid;
use std::marker::Model;

/// The links of some blocks, each with its block, in ascending order of the links.
#[derive(Drop)]
pub struct BlockIter<'a> {
    pub(crate) buffer: &'a [u8],
    pub(crate) entries: &'a [ScanEntry],
}

impl<'a> Model for BlockIter<'a> {
    ghost use Rattle.std.specs.Prelude.{List, ℕ, map};
    ghost use Rattle.std.specs.List.{All};
    ghost use Rattle.at_car.specs.Places.{laid, IsLaid};

    ghost Value = { List (List ℕ × List ℕ) };

    ghost view = { λ a. map (laid a.buffer.now) a.entries.now };

    ghost invariant = { λ a. All (IsLaid a.buffer.now) a.entries.now };
}

impl<'a> Iterator for BlockIter<'a> {
    type Item = (&'a Cid, &'a [u8]);

    ghost next_gives = { TakesFirst deref_pair };

    ghost remaining = { λ s. at_most (length s) };

    fn next(&mut self) -> Option<(&'a Cid, &'a [u8])> {
        let [entry, rest @ ..] = self.entries else {
            return None;
        };
        self.entries = rest;
        Some((&entry.link, bytes_at(self.buffer, &entry.place)))
    }
}
