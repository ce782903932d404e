//! Reading a tape.

ghost use Rattle.std.specs.Prelude.{◌≡◌, ◌≢◌, ◌≤◌, ◌<◌, ◌+◌, ◌-◌, ◌++◌, [], length, List, ℕ, IsTrue, IfOk, IfErr, OnOk, OnErr, IsErrOf};
ghost use Rattle.at_cid.specs.Counts.{Rose};
ghost use Rattle.tape.specs.Front.{ShowsFront, IsLonger};
ghost use Rattle.tape.specs.Format.{record_bytes};
ghost use Rattle.tape.specs.declared.fault.TapeFault.{TapeFault};

use crate::TapeFault;
use crate::front::{Front, read_front};
use crate::record::{LENGTHS, LONGEST_RECORD, Record};
use crate::window::ReadAhead;
use at_cid::Memory;
use relay_io::Source;
use std::alloc::Global;

/// The most bytes that are asked for at once.
const PIECE: usize = 1 << 16;

/// A reader of a tape, which takes at most so many bytes of its source.
#[derive(Drop)]
pub struct Tape {
    alloc: Global,
    window: ReadAhead,
    place: u64,
    most: u64,
    pub ghost within: { place + (window.end - window.start) ≤ most },
}

impl Tape {
    ghost use Rattle.tape.specs.Reading.{held, coming, IsNext, IsPlaced};
    ghost use Rattle.tape.specs.Steps.{IsEnd, HasNoPiece};

    /// A reader at the front of a tape, which will take at most `most` bytes. Takes no memory.
    pub fn new(alloc: Global, most: u64) -> Tape
        ensures held { held result ≡ [] }
        ensures place { result.place ≡ 0 }
        ensures most { result.most ≡ most }
    {
        Tape {
            alloc,
            window: ReadAhead::new(alloc),
            place: 0,
            most,
        }
    }

    /// The next record, or none where the input ends between two records.
    ///
    /// The input is what was taken and isn't used yet, followed by what the source has left; a fault leaves it as it was. A
    /// record's name is looked at when it is whole, and the length of its message when that is whole. Running out of memory may
    /// stand in place of every answer, and a failed read in place of every answer that needs more bytes.
    pub fn next<I: Source>(&mut self, source: &mut I) -> Result<Option<Record>, TapeFault>
        ensures next { IsTrue I.tells
            → IsNext self.old (I.left source.old) self.new (I.left source.new) result }
        ensures placed { IsPlaced self.old.place self.new.place result }
        ensures most { self.new.most ≡ self.old.most }
        ensures counts { I.faults source.old ≤ I.faults source.new }
        ensures steady { OnOk result (I.faults source.new ≡ I.faults source.old) }
        ensures no_fault { IfErr result
            (λ fault. fault ≢ TapeFault.Failed → I.faults source.new ≡ I.faults source.old) }
        ensures failed { IsErrOf result TapeFault.Failed
            → Rose (I.faults source.old) (I.faults source.new) }
    {
        'pieces: loop {
            let total = match self.front()? {
                Front::Record(record) => {
                    self.pass(&record);
                    return Ok(Some(record));
                }
                Front::BadName => return Err(TapeFault::BadName(self.place)),
                Front::TooLong => return Err(TapeFault::TooLong(self.place)),
                Front::More(total) => total,
            };
            if self.take_piece(source, total)? == 0 {
                return self.end();
            }
        }
    }

    // What stands at the front of what was taken.
    #[tactic(auto, using(crate::proofs::Fronts::front_shows))]
    fn front(&self) -> Result<Front, Memory>
        ensures shown { IfOk result (λ front. ShowsFront self.now.place front (held self.now)) }
        ensures longer { IfOk result (λ front. IsLonger (length (held self.now)) front) }
    {
        read_front(self.alloc, self.window.as_slice(), self.place)
    }

    // Lets go of the record that stands at the front of what was taken.
    fn pass(&mut self, record: &Record)
        requires { (rest : List ℕ)
            × (held self.old ≡ record_bytes record.now.host record.now.message ++ rest) }
        ensures held { held self.old ≡ record_bytes record.now.host record.now.message
            ++ held self.new }
        ensures place { self.new.place ≡ self.old.place
            + length (record_bytes record.now.host record.now.message) }
        ensures most { self.new.most ≡ self.old.most }
    {
        let size = LENGTHS + record.host.len() + record.message.len();
        self.window.consume(size);
        self.place += size as u64;
    }

    // Takes one piece, in room for a record of so many bytes, and says how many bytes came.
    fn take_piece<I: Source>(&mut self, source: &mut I, total: usize) -> Result<usize, TapeFault>
        requires more { length (held self.old) < total }
        requires most { total ≤ LONGEST_RECORD }
        ensures stays { IsTrue I.tells
            → coming self.new (I.left source.new) ≡ coming self.old (I.left source.old) }
        ensures same { OnErr result (held self.new ≡ held self.old) }
        ensures count { IfOk result (λ n. length (held self.new) ≡ length (held self.old) + n) }
        ensures end { IfOk result (λ n. IsTrue I.tells → n ≡ 0 → I.left source.new ≡ []) }
        ensures before { OnOk result (self.old.place + length (held self.old) < self.old.most) }
        ensures spent { IsErrOf result TapeFault.Budget
            → self.old.place + length (held self.old) ≡ self.old.most }
        ensures cause { IfErr result HasNoPiece }
        ensures place { self.new.place ≡ self.old.place }
        ensures most { self.new.most ≡ self.old.most }
        ensures counts { I.faults source.old ≤ I.faults source.new }
        ensures steady { OnOk result (I.faults source.new ≡ I.faults source.old) }
        ensures no_fault { IfErr result
            (λ fault. fault ≢ TapeFault.Failed → I.faults source.new ≡ I.faults source.old) }
        ensures failed { IsErrOf result TapeFault.Failed
            → Rose (I.faults source.old) (I.faults source.new) }
    {
        let left = self.most - self.place - self.window.len() as u64;
        if left == 0 {
            return Err(TapeFault::Budget);
        }
        self.window.make_room(total.max(PIECE))?;
        let most = self.window.spare().min(PIECE).min(left as usize);
        Ok(self.window.read_from(source, most)?)
    }

    // What is answered where the source has ended.
    fn end(&self) -> Result<Option<Record>, TapeFault>
        ensures { IsEnd self.now result }
    {
        if self.window.len() == 0 {
            return Ok(None);
        }
        Err(TapeFault::Torn(self.place))
    }
}
