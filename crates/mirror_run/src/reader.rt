//! Reading a stream.

ghost use Rattle.std.specs.Prelude.{◌≡◌, ◌≤◌, ◌<◌, ◌+◌, ◌++◌, [], length, List, ℕ, IsTrue, IfOk, IfErr, OnOk, OnErr, IsErrOf, Err};
ghost use Rattle.at_cid.specs.Lengths.{length_prefixed};
ghost use Rattle.tape.specs.ReadAhead.{items};
ghost use Rattle.tape.specs.declared.record.TheConstants.{LONGEST_RECORD};
ghost use Rattle.mirror_run.specs.Front.{IsLonger, ShowsFront};
ghost use Rattle.at_cid.specs.Counts.{Counted};

use crate::front::{Front, LENGTH, read_front};
use at_cid::{Memory, Octets};
use relay_io::{Failed, Source};
use std::alloc::Global;
use tape::ReadAhead;

/// The most bytes that are asked for at once.
const PIECE: usize = 1 << 16;

/// Why a stream gave no message.
#[derive(Clone, Copy, Debug, PartialEq, Eq)]
pub(crate) enum StreamFault {
    /// The input ends inside the next message, or that is longer than a message may be.
    Bad,
    /// A call of the source failed.
    Failed,
    /// As many bytes were taken as may be, and they are too few for an answer.
    Limit,
    /// Memory ran out.
    Memory,
}

impl From<Memory> for StreamFault {
    ghost use Rattle.std.specs.Prelude.{◌≡◌};
    ghost use Rattle.mirror_run.specs.declared.reader.StreamFault.{StreamFault};

    ghost from_gives = { λ _ e. e ≡ StreamFault.Memory };

    fn from(_e: Memory) -> StreamFault {
        StreamFault::Memory
    }
}

impl From<Failed> for StreamFault {
    ghost use Rattle.std.specs.Prelude.{◌≡◌};
    ghost use Rattle.mirror_run.specs.declared.reader.StreamFault.{StreamFault};

    ghost from_gives = { λ _ e. e ≡ StreamFault.Failed };

    fn from(_e: Failed) -> StreamFault {
        StreamFault::Failed
    }
}

/// A reader of a stream, which takes a limited number of bytes of its source.
#[derive(Drop)]
pub(crate) struct MessageReader {
    alloc: Global,
    window: ReadAhead,
    // Where the next message stands, in bytes from the front of the stream.
    place: u64,
    most: u64,
    pub ghost within: { place + length (items window) ≤ most },
}

impl MessageReader {
    ghost use Rattle.mirror_run.specs.Reading.{HasNoPiece, IsEnd, IsNext, IsPlaced, coming, held};

    /// A reader at the front of a stream, which will take at most `most` bytes. Takes no memory.
    pub(crate) fn new(alloc: Global, most: u64) -> MessageReader
        ensures held { held result ≡ [] }
        ensures place { result.place ≡ 0 }
        ensures most { result.most ≡ most }
    {
        MessageReader {
            alloc,
            window: ReadAhead::new(alloc),
            place: 0,
            most,
        }
    }

    /// Where the next message stands, in bytes from the front of the stream.
    pub(crate) fn place(&self) -> u64
        ensures value { result ≡ self.now.place }
        ensures within { result ≤ self.now.most }
    {
        self.place
    }

    /// The next message, or none where the input ends between two messages.
    ///
    /// The input is what was taken and isn't used yet, followed by what the source has left. Running out of memory may stand in
    /// place of every answer, and a failed read in place of every answer that needs more bytes.
    pub(crate) fn next<I: Source>(&mut self, source: &mut I) -> Result<Option<Octets>, StreamFault>
        ensures next { IsTrue I.tells
            → IsNext self.old (I.left source.old) self.new (I.left source.new) result }
        ensures placed { IsPlaced self.old.place self.new.place result }
        ensures most { self.new.most ≡ self.old.most }
        ensures counts { Counted (result ≡ Err StreamFault.Failed)
            (I.faults source.old) (I.faults source.new) }
    {
        'pieces: loop {
            let total = match self.front()? {
                Front::Message(message) => {
                    self.pass(&message);
                    return Ok(Some(message));
                }
                Front::TooLong => return Err(StreamFault::Bad),
                Front::More(total) => total,
            };
            if self.take_piece(source, total)? == 0 {
                return self.end();
            }
        }
    }

    // What stands at the front of what was taken.
    #[tactic(auto, using(crate::proofs::Fronts::front_shows))]
    fn front(&self) -> Result<Front, Memory>
        ensures shown { IfOk result (λ front. ShowsFront front (held self.now)) }
        ensures longer { IfOk result (λ front. IsLonger (length (held self.now)) front) }
    {
        read_front(self.alloc, self.window.as_slice())
    }

    // Lets go of the message that stands at the front of what was taken.
    fn pass(&mut self, message: &Octets)
        requires { (rest : List ℕ) × (held self.old ≡ length_prefixed message.now ++ rest) }
        ensures held { held self.old ≡ length_prefixed message.now ++ held self.new }
        ensures place { self.new.place ≡ self.old.place + length (length_prefixed message.now) }
        ensures most { self.new.most ≡ self.old.most }
    {
        let size = LENGTH + message.len();
        self.window.consume(size);
        self.place += size as u64;
    }

    // Takes one piece, in room for a message of so many bytes, and says how many bytes came.
    fn take_piece<I: Source>(&mut self, source: &mut I, total: usize) -> Result<usize, StreamFault>
        requires more { length (held self.old) < total }
        requires most { total ≤ LONGEST_RECORD }
        ensures stays { IsTrue I.tells
            → coming self.new (I.left source.new) ≡ coming self.old (I.left source.old) }
        ensures same { OnErr result (held self.new ≡ held self.old) }
        ensures count { IfOk result
            (λ n. length (held self.new) ≡ length (held self.old) + n) }
        ensures end { IfOk result (λ n. IsTrue I.tells → n ≡ 0 → I.left source.new ≡ []) }
        ensures spent { IsErrOf result StreamFault.Limit
            → self.old.place + length (held self.old) ≡ self.old.most }
        ensures cause { IfErr result HasNoPiece }
        ensures place { self.new.place ≡ self.old.place }
        ensures most { self.new.most ≡ self.old.most }
        ensures counts { Counted (result ≡ Err StreamFault.Failed)
            (I.faults source.old) (I.faults source.new) }
    {
        let left = self.most - self.place - self.window.len() as u64;
        if left == 0 {
            return Err(StreamFault::Limit);
        }
        self.window.make_room(total.max(PIECE))?;
        let most = self.window.spare().min(PIECE).min(left as usize);
        Ok(self.window.read_from(source, most)?)
    }

    // What is answered where the source has ended.
    fn end(&self) -> Result<Option<Octets>, StreamFault>
        ensures { IsEnd (held self.now) result }
    {
        if self.window.len() == 0 {
            return Ok(None);
        }
        Err(StreamFault::Bad)
    }
}
