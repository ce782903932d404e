//! Blocks at hand, behind marks that tell almost all links whose block isn't there.

ghost use Rattle.std.specs.Prelude.{◌≡◌, option_map, IfSome};
ghost use Rattle.std.specs.FinMap as map;
ghost use Rattle.at_cid.specs.Link.{IsBytes};
ghost use Rattle.at_car.specs.Blocks.{AreLinked};
ghost use Rattle.mst_view.specs.AtHand.{place_of};

use at_car::{Blocks, first_word};
use at_cid::Cid;
use std::marker::Model;

/// How many marks there are: of the links without a block among thirty, 6 in 100 are looked up all the same.
const MARKS: usize = 512;

/// Blocks, with marks at the places of their links. Contracts see the blocks' finite map.
///
/// Where a tree is read from few blocks, most of its links have none: a mark that isn't there tells that of almost all of them,
/// where a search compares links.
#[derive(Drop)]
pub(crate) struct AtHand<'a> {
    blocks: &'a Blocks,
    marks: [bool; MARKS],
}

impl<'a> Model for AtHand<'a> {
    ghost use Rattle.std.specs.FinMap as finite;
    ghost use Rattle.std.specs.Coded.{coded_list, coded_ℕ};
    ghost use Rattle.at_car.specs.Blocks.{BlockMap};
    ghost use Rattle.mst_view.specs.AtHand.{AreMarked};

    ghost Value = { BlockMap };

    ghost coded = { finite.code (coded_list coded_ℕ) (coded_list coded_ℕ) };

    ghost view = { λ a. a.blocks.now };

    ghost invariant = { λ a. AreMarked a.marks a.blocks.now };
}

/// The place of a link's mark, which its digest gives.
#[inline]
fn place_of(link: &Cid) -> usize
    ensures { result ≡ place_of link.now }
{
    first_word(link) as usize % MARKS
}

impl<'a> AtHand<'a> {
    /// The blocks with their marks.
    pub(crate) fn of(blocks: &'a Blocks) -> AtHand<'a>
        ensures { result ≡ blocks.now }
    {
        let mut marks = [false; MARKS];
        for (link, _) in blocks.iter() {
            marks[place_of(link)] = true;
        }
        AtHand { blocks, marks }
    }

    /// The block under a link.
    #[inline]
    pub(crate) fn get(&self, link: &Cid) -> Option<&[u8]>
        ensures is { option_map (λ block. block.now) result ≡ map.get self.now link.now }
        ensures bytes { IfSome result (λ block. IsBytes block.now) }
        ensures linked { AreLinked self.now }
    {
        self.blocks.ghost_linked();
        if self.marks[place_of(link)] {
            self.blocks.get(link)
        } else {
            None
        }
    }
}
