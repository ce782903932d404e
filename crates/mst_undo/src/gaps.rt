//! The gaps of a node, before its first key and behind each, in which a subtree, a hole or nothing lies.

ghost use Rattle.std.specs.Prelude.{◌≡◌, ◌<◌, ◌≤◌, length, MatchResult};
ghost use Rattle.at_cid.specs.Order.{key_cmp};
ghost use Rattle.mst_undo.specs.Gaps.{AreRising, IsPlace, IsFilled, gap_at};

use at_cid::compare;
use mst_view::{Below, Part, Rest};
use std::cmp::Ordering;
use std::mem;

/// The place of the part that has a key, or else of the key's gap.
pub(crate) fn place(parts: &[Part], key: &[u8]) -> Result<usize, usize>
    requires { AreRising parts.now }
    ensures is { IsPlace key.now parts.now result }
    ensures in_range { MatchResult result (λ at. at < length parts.now)
        (λ at. at ≤ length parts.now) }
{
    parts.binary_search_by(
        |part: &Part| -> Ordering
            ensures { result ≡ key_cmp part.now.key key.entry.now }
        { compare(part.key.as_slice(), key) },
    )
}

/// What lies in a gap, whose place is the number of keys before it.
pub(crate) fn gap<'a>(first: &'a Below, parts: &'a [Part], at: usize) -> &'a Below
    requires { at ≤ length parts.now }
    ensures { result.now ≡ gap_at at first.now parts.now }
{
    if at == 0 {
        return first;
    }
    let part = &parts[at - 1];
    &part.below
}

/// Puts what is to lie in a gap there, and gives what lay there.
pub(crate) fn replace_gap(first: &mut Below, rest: &mut Rest, at: usize, below: Below) -> Below
    requires { at ≤ length rest.old.items }
    ensures gap { result ≡ gap_at at first.old rest.old.items }
    ensures filled { IsFilled at below first.old rest.old.items first.new rest.new.items }
{
    if at == 0 {
        return mem::replace(first, below);
    }
    let part = &mut rest[at - 1];
    mem::replace(&mut part.below, below)
}
