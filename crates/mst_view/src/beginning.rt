//! Whether the links of a tree's holes begin differently.

ghost use Rattle.std.specs.Prelude.{◌≡◌, ◌<◌, ◌%◌, IfOk, OnOk, ◌++◌, map, nat_eq, true};
ghost use Rattle.std.specs.Str.{bytes_eq};
ghost use Rattle.at_cid.specs.Distinct.{all_differ};
ghost use Rattle.at_car.specs.Links.{first_word};
ghost use Rattle.mst_view.specs.Layered.{LiesBelow, below_items};
ghost use Rattle.mst_view.specs.HoleLinks.{hole_links};

use crate::branch::{Below, Branch};
use at_car::first_word;
use at_cid::Memory;
use std::alloc::Global;

#[cycle(words)]
#[inline]
fn words_below(layer: u8, below: &Below, words: &mut Vec<u64>) -> Result<(), Memory>
    requires { LiesBelow layer below.now }
    ensures { OnOk result (words.new.items ≡ words.old.items
        ++ map first_word (hole_links (below_items layer below.now))) }
{
    match below {
        Below::Empty => Ok(()),
        Below::Hole(link) => {
            words.push(first_word(link))?;
            Ok(())
        }
        Below::Tree(branch) => words_of(branch, words),
    }
}

/// Puts the numbers that the links of a node's holes begin with at the end of a list.
#[cycle(words)]
fn words_of(branch: &Branch, words: &mut Vec<u64>) -> Result<(), Memory>
    ensures { OnOk result
        (words.new.items ≡ words.old.items ++ map first_word (hole_links branch.now.items)) }
{
    words_below(branch.layer, &branch.first, words)?;
    for part in &branch.rest {
        words_below(branch.layer, &part.below, words)?;
    }
    Ok(())
}

/// How many numbers are few. It is also their room.
const FEW: usize = 256;

/// How many marks few numbers have.
const WORD_MARKS: usize = 1_024;

/// The place of a number's mark.
#[inline(always)]
fn place_of(word: u64) -> usize
    ensures is { result ≡ word % WORD_MARKS }
    ensures within { result < WORD_MARKS }
{
    (word % WORD_MARKS as u64) as usize
}

/// Whether no number stands twice. One is compared with those behind it only where there is a mark at its place.
fn differ(words: &[u64]) -> bool
    ensures { result ≡ true → all_differ nat_eq words.now ≡ true }
{
    let mut marks = [false; WORD_MARKS];
    let mut left = words.len();
    while left > 0 {
        left -= 1;
        let word = words[left];
        let place = place_of(word);
        if marks[place] && words[left + 1..].contains(&word) {
            return false;
        }
        marks[place] = true;
    }
    true
}

/// Whether no link of a node's holes begins as another, so that none stands twice: of few numbers that they begin with, each is
/// looked for by its mark, and many are put in order, which is faster than comparing links.
pub(crate) fn begin_apart(alloc: Global, branch: &Branch) -> Result<bool, Memory>
    ensures { IfOk result
        (λ apart. apart ≡ true → all_differ bytes_eq (hole_links branch.now.items) ≡ true) }
{
    let mut words = Vec::with_capacity(alloc, FEW)?;
    words_of(branch, &mut words)?;
    if words.len() <= FEW {
        return Ok(differ(words.as_slice()));
    }
    words.sort_unstable();
    Ok(words.as_slice().is_sorted_by(|a, b| a < b))
}
