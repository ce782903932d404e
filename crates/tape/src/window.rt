//! The bytes that a tape has taken and not yet used.

ghost use Rattle.std.specs.Prelude.{◌≡◌, ◌≤◌, ◌<◌, ◌+◌, ◌-◌, ◌++◌, [], length, drop, IsTrue, IfOk, OnOk, OnErr};
ghost use Rattle.at_cid.specs.Counts.{Rose};
ghost use Rattle.at_cid.specs.Link.{IsBytes};
ghost use Rattle.tape.specs.declared.record.TheConstants.{LONGEST_RECORD};

use crate::record::LONGEST_RECORD;
use at_cid::{Memory, ghost_bytes};
use relay_io::{Failed, Source};
use std::alloc::Global;

/// A room, and the bytes in it from one place to another. What is read goes behind them.
#[derive(Drop)]
pub struct ReadAhead {
    room: Vec<u8>,
    start: usize,
    end: usize,
    ghost ordered: { start ≤ end },
    ghost inside: { end ≤ length room.items },
    ghost small: { length room.items ≤ LONGEST_RECORD },
}

impl ReadAhead {
    ghost use Rattle.tape.specs.ReadAhead.{items, spare_of};

    /// No bytes, and no room. Takes no memory.
    pub fn new(alloc: Global) -> ReadAhead
        ensures { items result ≡ [] }
    {
        ReadAhead {
            room: Vec::new(alloc),
            start: 0,
            end: 0,
        }
    }

    /// The bytes.
    pub fn as_slice(&self) -> &[u8]
        ensures value { result.now ≡ items self.now }
        ensures bytes { IsBytes (items self.now) }
    {
        let bytes = &self.room[self.start..self.end];
        ghost_bytes(bytes);
        bytes
    }

    /// How many bytes there are.
    #[tactic(auto, using(crate::proofs::Windows::length_items))]
    pub fn len(&self) -> usize
        ensures { result ≡ length (items self.now) }
    {
        self.end - self.start
    }

    /// Lets go of so many bytes at the front.
    pub fn consume(&mut self, count: usize)
        requires { count ≤ length (items self.old) }
        ensures { items self.new ≡ drop count (items self.old) }
    {
        self.start += count;
    }

    /// How much room there is behind the bytes.
    pub fn spare(&self) -> usize
        ensures { result ≡ spare_of self.now }
    {
        self.room.len() - self.end
    }

    /// Moves the bytes to the front of the room, and makes it as long as wanted, where it is shorter.
    pub fn make_room(&mut self, wanted: usize) -> Result<(), Memory>
        requires more { length (items self.old) < wanted }
        requires most { wanted ≤ LONGEST_RECORD }
        ensures items { items self.new ≡ items self.old }
        ensures spare { OnOk result (0 < spare_of self.new) }
    {
        self.move_to_front();
        self.lengthen(wanted)
    }

    fn move_to_front(&mut self)
        ensures items { items self.new ≡ items self.old }
        ensures start { self.new.start ≡ 0 }
    {
        let (start, end) = (self.start, self.end);
        if start > 0 {
            self.room.as_mut_slice().copy_within(start..end, 0);
            self.start = 0;
            self.end = end - start;
        }
    }

    fn lengthen(&mut self, wanted: usize) -> Result<(), Memory>
        requires { wanted ≤ LONGEST_RECORD }
        ensures items { items self.new ≡ items self.old }
        ensures start { self.new.start ≡ self.old.start }
        ensures end { self.new.end ≡ self.old.end }
        ensures long { OnOk result (wanted ≤ length self.new.room.items) }
    {
        let length = self.room.len();
        if length < wanted {
            self.room.reserve_exact(wanted - length)?;
            self.room.resize(wanted, 0)?;
        }
        Ok(())
    }

    /// Reads at most so many bytes behind those that are here, and says how many.
    pub fn read_from<I: Source>(&mut self, source: &mut I, most: usize) -> Result<usize, Failed>
        requires some { 0 < most }
        requires fits { most ≤ spare_of self.old }
        ensures taken { OnOk result (IsTrue I.tells
            → items self.new ++ I.left source.new ≡ items self.old ++ I.left source.old) }
        ensures kept { OnErr result (IsTrue I.tells → I.left source.new ≡ I.left source.old) }
        ensures same { OnErr result (items self.new ≡ items self.old) }
        ensures count { IfOk result (λ n. length (items self.new) ≡ length (items self.old) + n) }
        ensures most { IfOk result (λ n. n ≤ most) }
        ensures end { IfOk result (λ n. IsTrue I.tells → n ≡ 0 → I.left source.new ≡ []) }
        ensures counts { I.faults source.old ≤ I.faults source.new }
        ensures steady { OnOk result (I.faults source.new ≡ I.faults source.old) }
        ensures failed { OnErr result (Rose (I.faults source.old) (I.faults source.new)) }
    {
        let end = self.end;
        let count = source.read(&mut self.room[end..end + most])?;
        self.end = end + count;
        Ok(count)
    }
}
