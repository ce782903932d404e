//! A link, and where the block under it lies.

ghost use Rattle.std.specs.Prelude.{◌≡◌, ◌<◌, ℕ, List, length, Some, OnOk, IfOk, IfErr, nat_eq, refl};
ghost use Rattle.std.specs.List.{All, HoldsAt};
ghost use Rattle.std.specs.List.Sorted.{IsPartitionPoint, IsSearchInRange};
ghost use Rattle.std.specs.Cmp.{partial_equiv_from_equiv, on_equiv, on_total, on_po};
ghost use Rattle.std.specs.Cmp.Lexicographic.{nat_list_eq_equiv, pointwise};
ghost use Rattle.std.specs.declared.cmp.Ordering.TheVariants.{Less, Equal, Greater};
ghost use Rattle.at_cid.specs.Order.{key_cmp};
ghost use Rattle.at_cid.specs.OrderLaws.{key_po, key_total, key_ties};
ghost use Rattle.at_car.specs.Entries.{AreInOrder, place_of};
ghost use Rattle.at_car.specs.Links.{first_word};
ghost use Rattle.at_car.specs.Logs.{IsTold};

use crate::links::first_word;
use crate::place::BlockPlace;
use at_cid::{Cid, Memory};
use std::alloc::Global;
use std::cmp::Ordering;

/// A link, and where the block under it lies in a buffer. Entries compare by their links alone.
#[derive(Clone, Copy, Debug)]
pub(crate) struct ScanEntry {
    pub link: Cid,
    pub place: BlockPlace,
}

impl PartialEq for ScanEntry {
    ghost use Rattle.at_car.specs.declared.entry.ScanEntry.{ScanEntry};

    ghost eq = { λ a b. pointwise nat_eq a.link b.link };

    ghost laws = { partial_equiv_from_equiv (on_equiv (λ (e : ScanEntry). e.link) nat_list_eq_equiv) };

    fn eq(&self, other: &ScanEntry) -> bool {
        self.link == other.link
    }
}

impl Eq for ScanEntry {
    ghost use Rattle.at_car.specs.declared.entry.ScanEntry.{ScanEntry};

    ghost laws = { on_equiv (λ (e : ScanEntry). e.link) nat_list_eq_equiv };
}

impl PartialOrd for ScanEntry {
    ghost use Rattle.at_car.specs.declared.entry.ScanEntry.{ScanEntry};

    ghost partial_cmp = { λ a b. Some (key_cmp a.link b.link) };

    ghost laws = { on_po (λ (e : ScanEntry). e.link) key_po };

    fn partial_cmp(&self, other: &ScanEntry) -> Option<Ordering> {
        Some(self.cmp(other))
    }
}

impl Ord for ScanEntry {
    ghost use Rattle.at_car.specs.declared.entry.ScanEntry.{ScanEntry};

    ghost cmp = { λ a b. key_cmp a.link b.link };

    ghost total = { on_total (λ (e : ScanEntry). e.link) key_total };

    ghost matches_partial_cmp = { λ a b. refl };

    ghost matches_eq = { λ a b. key_ties a.link b.link };

    #[inline]
    fn cmp(&self, other: &ScanEntry) -> Ordering {
        self.link.cmp(&other.link)
    }
}

/// From so many entries on they are put in order by first words, which take less to compare and to move than links.
const MANY: usize = 1_024;

/// The words of so many entries take too much memory.
const TOO_MANY: usize = 65_536;

/// Puts entries in order of the first words of their links. Those of one word keep their order.
fn bring_near(alloc: Global, entries: &mut [ScanEntry]) -> Result<(), Memory>
    ensures places { (link : List ℕ) → place_of link entries.new ≡ place_of link entries.old }
    ensures len { length entries.new ≡ length entries.old }
    ensures told { (buffer : List ℕ) → All (IsTold buffer) entries.old
        → All (IsTold buffer) entries.new }
{
    entries.sort_by_cached_key(
        alloc,
        |entry: &ScanEntry| -> u64
            ensures { result ≡ first_word entry.now.link }
        { first_word(&entry.link) },
    )?;
    Ok(())
}

/// Puts each half of many entries in order of the first words of their links: for half of them that takes half the memory.
fn bring_halves_near(alloc: Global, entries: &mut [ScanEntry]) -> Result<(), Memory>
    ensures places { (link : List ℕ) → place_of link entries.new ≡ place_of link entries.old }
    ensures len { length entries.new ≡ length entries.old }
    ensures told { (buffer : List ℕ) → All (IsTold buffer) entries.old
        → All (IsTold buffer) entries.new }
{
    if !(MANY..TOO_MANY).contains(&entries.len()) {
        return Ok(());
    }
    let half = entries.len() / 2;
    let (front, back) = entries.split_at_mut(half);
    bring_near(alloc, front)?;
    bring_near(alloc, back)
}

/// Puts entries in ascending order of their links. A link that stands twice keeps its first place.
pub(crate) fn settle(alloc: Global, entries: &mut Vec<ScanEntry>) -> Result<(), Memory>
    ensures places { (link : List ℕ)
        → place_of link entries.new.items ≡ place_of link entries.old.items }
    ensures order { OnOk result (AreInOrder entries.new.items) }
    ensures told { (buffer : List ℕ) → All (IsTold buffer) entries.old.items
        → All (IsTold buffer) entries.new.items }
{
    bring_halves_near(alloc, entries.as_mut_slice())?;
    // Few links begin alike, and few are of the other kind.
    entries.sort()?;
    entries.dedup();
    Ok(())
}

/// Where the entry of a link stands, or else where it belongs.
#[inline]
pub(crate) fn seek(entries: &[ScanEntry], link: &Cid) -> Result<usize, usize>
    requires { AreInOrder entries.now }
    ensures range { IsSearchInRange result (length entries.now) }
    ensures there { IfOk result
        (HoldsAt (λ (e : ScanEntry). place_of link.now entries.now ≡ Some e.place) entries.now) }
    ensures absent { IfErr result (IsPartitionPoint (λ (e : ScanEntry). key_cmp e.link link.now
        ≡ Less) (λ (e : ScanEntry). key_cmp e.link link.now ≡ Greater) entries.now) }
{
    // A search looks at the link alone.
    let place = BlockPlace { start: 0, len: 0 };
    entries.binary_search(&ScanEntry { link: *link, place })
}

/// The place of a link.
#[inline]
pub(crate) fn find(entries: &[ScanEntry], link: &Cid) -> Option<BlockPlace>
    requires { AreInOrder entries.now }
    ensures { result ≡ place_of link.now entries.now }
{
    match seek(entries, link) {
        Ok(index) => Some(entries[index].place),
        Err(_) => None,
    }
}
