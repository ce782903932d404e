//! Whether the keys of a node have its layer's height, where what they share is hashed once.

ghost use Rattle.std.specs.Prelude.{◌≡◌, ◌≤◌, ◌<◌, ◌+◌, ◌^◌, ◌++◌, ℕ, List, IsTrue, length, map, take, IfSome};
ghost use Rattle.std.specs.List.{list_all};
ghost use Rattle.sha2.specs.Hashers.{Holds256};
ghost use Rattle.mst_node.specs.Fits.{stands};
ghost use Rattle.mst_node.specs.Fronts.{HoldsFront, HoldsFronts, HaveBlock, HasBlock};

use crate::keyed::Keyed;
use mst_list::height_behind;
use sha2::{Digest, Sha256};

/// How many bytes SHA-256 takes at once. (FIPS 180-4, section 1.)
const BLOCK: usize = 64;

/// Whether an entry's key has the layer's height, and it has no child at layer 0. A hasher was given so many bytes of the
/// key.
#[tactic(auto, using(crate::proofs::Standing::hangs_so, crate::proofs::Fronts::front_whole))]
fn stands_behind<E: Keyed>(layer: u8, hasher: &Sha256, count: usize, entry: &E) -> bool
    requires { HoldsFront hasher.now count (E.entry entry.now).key }
    ensures { result ≡ stands layer (E.entry entry.now) }
{
    let rest = entry.key().as_slice().split_at(count).1;
    height_behind(hasher, rest) == layer && (layer != 0 || !entry.hangs())
}

/// The block of a key behind so many bytes, where the key has as many.
fn block_behind(count: usize, key: &[u8]) -> Option<&[u8; BLOCK]>
    ensures { IfSome result (λ block. HasBlock count block.now key.now) }
{
    if count > key.len() {
        return None;
    }
    key.split_at(count).1.first_chunk::<BLOCK>()
}

/// Whether a key has this block behind so many bytes.
fn has_block(count: usize, block: &[u8; BLOCK], key: &[u8]) -> bool
    ensures { IsTrue result → HasBlock count block.now key.now }
{
    match block_behind(count, key) {
        Some(found) => *found == *block,
        None => false,
    }
}

/// How many of the entries, from the first on, have keys with this block behind so many bytes.
fn count_alike<E: Keyed>(count: usize, block: &[u8; BLOCK], entries: &[E]) -> usize
    ensures most { result ≤ length entries.now }
    ensures alike { HaveBlock E.entry count block.now (take result entries.now) }
{
    let mut alike = 0;
    'entries: for entry in entries {
        if !has_block(count, block, entry.key().as_slice()) {
            return alike;
        }
        alike += 1;
    }
    alike
}

/// The block that the keys of the first two entries have behind so many bytes, and how many entries from the first on have
/// it.
fn shared_block<'a, E: Keyed>(count: usize, entries: &'a [E]) -> Option<(&'a [u8; BLOCK], usize)>
    ensures alike { IfSome result (λ x. HaveBlock E.entry count x.0.now (take x.1 entries.now)) }
    ensures some { IfSome result (λ x. (0 < x.1) × (x.1 ≤ length entries.now)) }
    ensures room { IfSome result (λ x. count + 64 < 2 ^ 63) }
{
    let [first, _, ..] = entries else {
        return None;
    };
    let Some(block) = block_behind(count, first.key().as_slice()) else {
        return None;
    };
    let alike = count_alike(count, block, entries);
    if alike < 2 {
        return None;
    }
    Some((block, alike))
}

/// A hasher that was given a block more.
fn given(hasher: &Sha256, block: &[u8; BLOCK]) -> Sha256
    ensures { (front : List ℕ) → Holds256 hasher.now front → Holds256 result (front ++ block.now) }
{
    let Ok(mut hasher) = hasher.clone() else {
        unreachable!()
    };
    hasher.update(block);
    hasher
}

/// Whether each entry's key has the layer's height, and it has no child at layer 0, where a hasher was given so many bytes
/// that all the keys begin with. What neighbours share behind them is hashed once.
#[tactic(auto, using(crate::proofs::Fronts::behind_held, crate::proofs::Fronts::run_stands))]
fn all_stand_behind<E: Keyed>(layer: u8, hasher: &Sha256, count: usize, entries: &[E]) -> bool
    requires { HoldsFronts E.entry hasher.now count entries.now }
    ensures { result ≡ list_all (stands layer) (map E.entry entries.now) }
{
    let mut rest = entries;
    'runs: while let [first, others @ ..] = rest {
        let Some((block, alike)) = shared_block(count, rest) else {
            if !stands_behind(layer, hasher, count, first) {
                return false;
            }
            rest = others;
            continue;
        };
        let (run, behind) = rest.split_at(alike);
        if !all_stand_behind(layer, &given(hasher, block), count + BLOCK, run) {
            return false;
        }
        rest = behind;
    }
    true
}

/// Whether each entry's key has the layer's height, and none has a child at layer 0.
#[tactic(auto, using(crate::proofs::Fronts::none_held))]
pub(crate) fn all_stand<E: Keyed>(layer: u8, entries: &[E]) -> bool
    ensures { result ≡ list_all (stands layer) (map E.entry entries.now) }
{
    all_stand_behind(layer, &Sha256::new(), 0, entries)
}
