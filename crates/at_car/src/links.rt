//! Links, each once.

ghost use Rattle.std.specs.Prelude.{◌≡◌, length};
ghost use Rattle.std.specs.List.Sorted.{IsStrictlySortedBy};
ghost use Rattle.at_cid.specs.Order.{key_cmp};
ghost use Rattle.at_car.specs.Links.{first_word, has};

use at_cid::Cid;
use std::marker::Model;

/// Links, each once, in ascending order. A look-up compares as many as the logarithm of their number.
#[derive(Drop)]
pub struct Links {
    links: Vec<Cid>,
}

impl Model for Links {
    ghost use Rattle.std.specs.Prelude.{List, ℕ};
    ghost use Rattle.std.specs.List.Sorted.{IsStrictlySortedBy};
    ghost use Rattle.at_cid.specs.Order.{key_cmp};

    ghost Value = { List (List ℕ) };

    ghost view = { λ a. a.links.items };

    ghost invariant = { λ a. IsStrictlySortedBy key_cmp a.links.items };
}

impl Links {
    /// Links that ascend.
    pub(crate) fn of(links: Vec<Cid>) -> Links
        requires { IsStrictlySortedBy key_cmp links.items }
        ensures { result ≡ links.items }
    {
        Links { links }
    }

    /// How many links there are.
    pub fn len(&self) -> usize
        ensures len { result ≡ length self.now }
        // No link stands twice.
        ensures ascending { IsStrictlySortedBy key_cmp self.now }
    {
        self.links.len()
    }

    /// Whether a link is there.
    pub fn contains(&self, link: &Cid) -> bool
        ensures { result ≡ has self.now link.now }
    {
        self.links.as_slice().binary_search(link).is_ok()
    }
}

/// The first eight bytes of a link's digest as a number, the highest first.
#[tactic(auto, unfolding(crate::specs::Links::first_word))]
#[inline]
pub fn first_word(link: &Cid) -> u64
    ensures { result ≡ first_word link.now }
{
    let bytes = link.as_bytes();
    u64::from_be_bytes([
        bytes[4], bytes[5], bytes[6], bytes[7], bytes[8], bytes[9], bytes[10], bytes[11],
    ])
}
