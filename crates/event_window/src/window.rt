//! The places of events, in the order of their numbers.

ghost use Rattle.std.specs.Prelude.{◌≡◌, ◌≤◌, ◌<◌, ◌+◌, ◌++◌, ◌∷◌, [], ℕ, length, drop, slice_get, vec_len, vec_capacity, max, None, IfSome, OnErr, OnOk, true};
ghost use Rattle.event_window.specs.Window.{AreAbove, IsLastUpto, all_above, is_at_most};

use crate::place::Place;
use at_cid::Memory;
use std::alloc::Global;
use std::marker::Model;

/// The places of events, in the order in which they were added.
#[derive(Drop)]
pub struct Window {
    places: Vec<Place>,
    spare: usize,
}

impl Model for Window {
    ghost use Rattle.std.specs.Prelude.{◌≤◌, ◌+◌, vec_len, vec_capacity};
    ghost use Rattle.event_window.specs.Window.{WindowState};

    ghost Value = { WindowState };

    ghost view = { λ w. record { places = w.places.items; spare = w.spare } };

    ghost invariant = { λ w. vec_len w.places + w.spare ≤ vec_capacity w.places };
}

impl Window {
    /// No places. Takes no memory.
    pub fn new(alloc: Global) -> Window
        ensures places { result.places ≡ [] }
        ensures spare { result.spare ≡ 0 }
    {
        Window {
            places: Vec::new(alloc),
            spare: 0,
        }
    }

    /// Makes room for so many more, where there is less. Fails where memory is refused, and leaves the room that there was.
    pub fn reserve(&mut self, more: usize) -> Result<(), Memory>
        ensures same { self.new.places ≡ self.old.places }
        ensures room { OnOk result (more ≤ self.new.spare) }
        ensures spare { OnOk result (self.new.spare ≡ max self.old.spare more) }
        ensures refused { OnErr result (self.new.spare ≡ self.old.spare) }
        ensures wanted { OnErr result (self.old.spare < more) }
    {
        if self.spare < more {
            self.places.reserve(more)?;
            self.spare = more;
        }
        Ok(())
    }

    /// For how many more there is room.
    pub fn spare(&self) -> usize
        ensures { result ≡ self.now.spare }
    {
        self.spare
    }

    /// How many there are.
    pub fn len(&self) -> usize
        ensures { result ≡ length self.now.places }
    {
        self.places.len()
    }

    /// The places.
    pub fn as_slice(&self) -> &[Place]
        ensures { result.now ≡ self.now.places }
    {
        self.places.as_slice()
    }

    /// Adds the place of one more event behind the others. Takes no memory.
    pub fn push(&mut self, place: Place)
        requires { 0 < self.old.spare }
        ensures places { self.new.places ≡ self.old.places ++ place ∷ [] }
        ensures spare { self.new.spare + 1 ≡ self.old.spare }
    {
        self.places.push_reserved(place);
        self.spare -= 1;
    }

    /// The first of them, which has the least number where the numbers rise.
    pub fn first(&self) -> Option<Place>
        ensures { result ≡ slice_get self.now.places 0 }
    {
        if self.places.is_empty() {
            return None;
        }
        Some(self.places[0])
    }

    /// The last of the places of the numbers up to a number, where the numbers rise.
    pub fn last_upto(&self, seq: u64) -> Option<Place>
        ensures none { result ≡ None → AreAbove 0 self.now.places
            → self.now.places ≡ all_above seq self.now.places }
        ensures last { IfSome result
            (λ p. AreAbove 0 self.now.places → IsLastUpto seq p self.now.places) }
    {
        let count = upto(self.places.as_slice(), seq);
        if count == 0 {
            return None;
        }
        Some(self.places[count - 1])
    }

    /// The places of the numbers above a number, where the numbers rise. They are searched for, unless there are as many as `likely`
    /// says, which is seen at once.
    pub fn above(&self, seq: u64, likely: usize) -> &[Place]
        ensures above { AreAbove 0 self.now.places → result.now ≡ all_above seq self.now.places }
        ensures part { (count : ℕ) × (result.now ≡ drop count self.now.places) }
    {
        let places = self.places.as_slice();
        let index = places.len().saturating_sub(likely);
        if begins_at(places, seq, index) {
            return &places[index..];
        }
        &places[upto(places, seq)..]
    }
}

// Whether the first whose number is above a number stands at an index, where the numbers rise.
fn begins_at(places: &[Place], seq: u64, index: usize) -> bool
    ensures begins { result ≡ true → AreAbove 0 places.now
        → all_above seq places.now ≡ drop index places.now }
    ensures bound { result ≡ true → index < length places.now }
{
    if index >= places.len() || places[index].seq <= seq {
        return false;
    }
    index == 0 || places[index - 1].seq <= seq
}

// How many stand in front of the first whose number is above a number, where the numbers rise.
fn upto(places: &[Place], seq: u64) -> usize
    ensures upto { AreAbove 0 places.now → all_above seq places.now ≡ drop result places.now }
    ensures bound { result ≤ length places.now }
{
    places.partition_point(
        |place: &Place| -> bool
            ensures { result ≡ is_at_most seq place.now }
        { place.seq <= seq },
    )
}
