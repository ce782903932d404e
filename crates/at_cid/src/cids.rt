//! Links in a list.

ghost use Rattle.std.specs.Prelude.{◌≡◌, List, ℕ, [], ◌∷◌, ◌++◌, length, ◌==◌, slice_get, option_map, OnErr, OnOk, IfOk};

use crate::cid::Cid;
use crate::memory::Memory;
use std::alloc::Global;
use std::marker::Model;

/// A list of links, seen in contracts as the list of their bytes.
#[derive(Debug, Drop)]
pub struct Cids {
    links: Vec<Cid>,
}

impl Model for Cids {
    ghost use Rattle.std.specs.Prelude.{List, ℕ};

    ghost Value = { List (List ℕ) };

    ghost view = { λ a. a.links.items };
}

impl Cids {
    /// No links. Takes no memory.
    pub fn new(alloc: Global) -> Cids
        ensures { result ≡ [] }
    {
        Cids {
            links: Vec::new(alloc),
        }
    }

    /// The links.
    pub fn as_slice(&self) -> &[Cid]
        ensures { result.now ≡ self.now }
    {
        self.links.as_slice()
    }

    /// How many links there are.
    pub fn len(&self) -> usize
        ensures { result ≡ length self.now }
    {
        self.links.len()
    }

    /// Whether there are none.
    pub fn is_empty(&self) -> bool
        ensures { result ≡ (length self.now == 0) }
    {
        self.links.is_empty()
    }

    /// The link at a place, counted from 0.
    pub fn get(&self, i: usize) -> Option<&Cid>
        ensures { option_map (λ link. link.now) result ≡ slice_get self.now i }
    {
        self.links.get(i)
    }

    /// Adds a link at the end. After [`Memory`] the list is as it was.
    pub fn push(&mut self, link: Cid) -> Result<(), Memory>
        ensures ok { OnOk result (self.new ≡ self.old ++ link ∷ []) }
        ensures err { OnErr result (self.new ≡ self.old) }
    {
        self.links.push(link)?;
        Ok(())
    }

    /// The same links once more.
    pub fn try_clone(&self) -> Result<Cids, Memory>
        ensures { IfOk result (λ made. made ≡ self.now) }
    {
        let links = self.links.clone()?;
        Ok(Cids { links })
    }
}
