//! A CAR that comes in pieces of any size.

ghost use Rattle.std.specs.Prelude.{◌≡◌, ◌++◌, ℕ, List, Bool, [], OnOk, OnErr};
ghost use Rattle.at_car.specs.Car.{car_of};
ghost use Rattle.at_car.specs.Standing.{StandsFor, IsIdle};
ghost use Rattle.at_car.specs.Finishing.{Finishes};

use crate::advancing::{advance, hold};
use crate::blocks::Blocks;
use crate::fault::CarFault;
use crate::links::Links;
use crate::log::ScanLog;
use crate::progress::Progress;
use crate::sieve::Sieve;
use crate::sifting::Sifted;
use at_cid::{Cids, Memory, Octets};
use std::alloc::Global;

/// What a sieve keeps of a CAR.
#[derive(Drop)]
pub struct Kept {
    pub roots: Cids,
    /// The first root's block, where it is there.
    pub first: Option<Octets>,
    /// The blocks that the sieve keeps.
    pub nodes: Blocks,
    /// The links of all other blocks.
    pub others: Links,
}

/// Takes the bytes of a CAR in pieces of any size, and holds of its blocks only those that a sieve keeps. (CARv1
/// specification.)
///
/// Besides these it holds what isn't read yet: a front of a section, and the piece before. Each block is hashed once.
#[derive(Drop)]
pub struct Scan<S: Sieve> {
    alloc: Global,
    sieve: S,
    progress: Progress,
}

impl<S: Sieve> Scan<S> {
    /// Of no bytes.
    pub fn new(alloc: Global, sieve: S) -> Scan<S>
        ensures { StandsFor S.picks result.progress [] }
    {
        let sifted = Sifted {
            first: None,
            log: ScanLog::new(alloc),
        };
        let progress = Progress {
            roots: None,
            sifted,
            place: 0,
            held: Octets::new(alloc),
            start: 0,
            fault: None,
        };
        Scan {
            alloc,
            sieve,
            progress,
        }
    }

    /// The bytes so far are followed by the piece. After [`Memory`] they are as before.
    pub fn push(&mut self, piece: &[u8]) -> Result<(), Memory>
        ensures ok { OnOk result ((bytes : List ℕ) → StandsFor S.picks self.old.progress bytes
            → StandsFor S.picks self.new.progress (bytes ++ piece.now)) }
        ensures err { OnErr result ((bytes : List ℕ) → StandsFor S.picks self.old.progress bytes
            → StandsFor S.picks self.new.progress bytes) }
    {
        advance(self.alloc, &self.sieve, &mut self.progress)?;
        hold(self.alloc, &mut self.progress, piece)
    }

    /// What is kept of the CAR that the bytes so far are, or its fault, as [`crate::read`] gives it.
    pub fn finish(self) -> Result<Kept, CarFault>
        ensures { (bytes : List ℕ) → StandsFor S.picks self.progress bytes
            → Finishes S.picks result (car_of bytes) }
    {
        let Scan {
            alloc,
            sieve,
            mut progress,
        } = self;
        advance(alloc, &sieve, &mut progress)?;
        finish(alloc, progress)
    }
}

/// What was read, where nothing is left to be read.
fn finish(alloc: Global, progress: Progress) -> Result<Kept, CarFault>
    requires { IsIdle progress }
    ensures { (picks : List ℕ → Bool) (bytes : List ℕ)
        → StandsFor picks progress bytes → Finishes picks result (car_of bytes) }
{
    let Progress {
        roots,
        sifted,
        place,
        held,
        start,
        fault,
    } = progress;
    if let Some(fault) = fault {
        return Err(fault);
    }
    let Some(roots) = roots else {
        return Err(CarFault::Header);
    };
    if start < held.len() {
        return Err(CarFault::Section(place));
    }
    let Sifted { first, log } = sifted;
    let (nodes, others) = log.split(alloc)?;
    Ok(Kept {
        roots,
        first,
        nodes,
        others,
    })
}
