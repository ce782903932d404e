//! Reading on.

ghost use Rattle.std.specs.Prelude.{◌≡◌, ◌≤◌, ◌<◌, ◌+◌, ◌^◌, ◌++◌, ℕ, List, Bool, [], length, drop, true, false, None, Some, Err, OnOk, OnErr, IfOk, IsSome};
ghost use Rattle.at_car.specs.Car.{fault_of};
ghost use Rattle.at_car.specs.Cuts.{is_cut};
ghost use Rattle.at_car.specs.Standing.{left_of, root_of, root_in, StandsFor, IsIdle, Took};

use crate::cuts::is_cut;
use crate::fault::CarFault;
use crate::header::read_header;
use crate::progress::{Progress, Taken};
use crate::section::read_section;
use crate::sieve::Sieve;
use crate::sifting::{Sifted, sift};
use at_cid::{Cid, Cids, Memory, Octets, ghost_bytes};
use std::alloc::Global;

/// The fault, where it isn't running out of memory.
fn known(fault: CarFault) -> Result<CarFault, Memory>
    ensures { IfOk result (λ f. (f ≡ fault) × (fault_of fault ≡ Some fault)) }
{
    match fault {
        CarFault::Header => Ok(CarFault::Header),
        CarFault::Section(place) => Ok(CarFault::Section(place)),
        CarFault::CidForm(place) => Ok(CarFault::CidForm(place)),
        CarFault::WrongDigest(place) => Ok(CarFault::WrongDigest(place)),
        CarFault::Memory => Err(Memory),
    }
}

/// Takes the section at the front of bytes that aren't cut.
fn take_section<S: Sieve>(
    alloc: Global,
    sieve: &S,
    root: &Option<Cid>,
    sifted: &mut Sifted,
    place: u64,
    left: &[u8],
) -> Result<Taken, Memory>
    requires { is_cut left.now ≡ false }
    ensures took { IfOk result (Took S.picks root.now place left.now sifted.old sifted.new) }
    ensures err { OnErr result (sifted.new ≡ sifted.old) }
{
    let section = match read_section(place, left) {
        Ok(section) => section,
        Err(fault) => {
            let fault = known(fault)?;
            return Ok(Taken::Fault(fault));
        }
    };
    sift(alloc, sieve, root, sifted, section.link, section.block)?;
    Ok(Taken::Section(left.len() - section.rest.len()))
}

/// The first root, where there is one.
pub fn first_root(roots: &Cids) -> Option<Cid>
    ensures { result ≡ root_of roots.now }
{
    match roots.as_slice() {
        [first, ..] => Some(*first),
        [] => None,
    }
}

impl Progress {
    /// The bytes that aren't read yet.
    fn left(&self) -> &[u8]
        ensures { result.now ≡ left_of self.now }
    {
        self.held.as_slice().split_at(self.start).1
    }

    /// How many bytes aren't read yet.
    fn left_len(&self) -> usize
        ensures { result ≡ length (left_of self.now) }
    {
        self.left().len()
    }

    fn first_root(&self) -> Option<Cid>
        ensures { result ≡ root_in self.now.roots }
    {
        match &self.roots {
            Some(roots) => first_root(roots),
            None => None,
        }
    }

    /// From now on the fault is the answer, and no bytes are held.
    fn fail(&mut self, alloc: Global, fault: CarFault)
        ensures fault { self.new.fault ≡ Some fault }
        ensures left { left_of self.new ≡ [] }
    {
        self.fault = Some(fault);
        self.start = 0;
        self.held = Octets::new(alloc);
    }

    /// So many bytes more were read.
    fn pass(&mut self, used: usize)
        requires within { used ≤ length (left_of self.old) }
        requires fits { self.old.place + length (left_of self.old) < 2 ^ 64 }
        ensures place { self.new.place ≡ self.old.place + used }
        ensures left { left_of self.new ≡ drop used (left_of self.old) }
        ensures roots { self.new.roots ≡ self.old.roots }
        ensures sifted { self.new.sifted ≡ self.old.sifted }
        ensures fault { self.new.fault ≡ self.old.fault }
    {
        let _most: usize = self.held.len();
        self.place += used as u64;
        self.start += used;
    }
}

/// Reads the header, which isn't cut.
fn read_front(alloc: Global, progress: &mut Progress) -> Result<(), Memory>
    requires well { progress.old.fault ≡ None }
    requires front { progress.old.roots ≡ None }
    requires uncut { is_cut (left_of progress.old) ≡ false }
    requires fits { progress.old.place + length (left_of progress.old) < 2 ^ 64 }
    ensures stands { (picks : List ℕ → Bool) (bytes : List ℕ)
        → StandsFor picks progress.old bytes → StandsFor picks progress.new bytes }
    ensures shorter { OnOk result (length (left_of progress.new) < length (left_of progress.old)) }
{
    let left = progress.left();
    ghost_bytes(left);
    let len = left.len();
    let Some((roots, rest)) = read_header(alloc, left)? else {
        progress.fail(alloc, CarFault::Header);
        return Ok(());
    };
    let used = len - rest.len();
    progress.pass(used);
    progress.roots = Some(roots);
    Ok(())
}

/// Reads a section, which isn't cut.
fn read_next<S: Sieve>(alloc: Global, sieve: &S, progress: &mut Progress) -> Result<(), Memory>
    requires well { progress.old.fault ≡ None }
    requires begun { IsSome progress.old.roots }
    requires uncut { is_cut (left_of progress.old) ≡ false }
    requires fits { progress.old.place + length (left_of progress.old) < 2 ^ 64 }
    ensures stands { (bytes : List ℕ) → StandsFor S.picks progress.old bytes
        → StandsFor S.picks progress.new bytes }
    ensures shorter { OnOk result (length (left_of progress.new) < length (left_of progress.old)) }
{
    let root = progress.first_root();
    let left = progress.held.as_slice().split_at(progress.start).1;
    let taken = take_section(
        alloc,
        sieve,
        &root,
        &mut progress.sifted,
        progress.place,
        left,
    )?;
    match taken {
        Taken::Section(used) => progress.pass(used),
        Taken::Fault(fault) => progress.fail(alloc, fault),
    }
    Ok(())
}

/// Lets go what came again under a link.
fn tidy(alloc: Global, progress: &mut Progress) -> Result<(), Memory>
    ensures stands { (picks : List ℕ → Bool) (bytes : List ℕ)
        → StandsFor picks progress.old bytes → StandsFor picks progress.new bytes }
    ensures left { left_of progress.new ≡ left_of progress.old }
    ensures place { progress.new.place ≡ progress.old.place }
    ensures roots { progress.new.roots ≡ progress.old.roots }
    ensures fault { progress.new.fault ≡ progress.old.fault }
{
    progress.sifted.log.tidy(alloc)
}

/// Reads what comes next, where it is whole, and says whether it is.
fn step<S: Sieve>(alloc: Global, sieve: &S, progress: &mut Progress) -> Result<bool, Memory>
    ensures stands { (bytes : List ℕ) → StandsFor S.picks progress.old bytes
        → StandsFor S.picks progress.new bytes }
    ensures idle { IfOk result (λ went. went ≡ false → IsIdle progress.new) }
    ensures shorter { IfOk result
        (λ went. went ≡ true → length (left_of progress.new) < length (left_of progress.old)) }
{
    if progress.fault.is_some() || is_cut(progress.left()) {
        return Ok(false);
    }
    if progress
        .place
        .checked_add(progress.left_len() as u64)
        .is_none()
    {
        return Err(Memory);
    }
    if progress.roots.is_some() {
        tidy(alloc, progress)?;
        read_next(alloc, sieve, progress)?;
    } else {
        read_front(alloc, progress)?;
    }
    Ok(true)
}

/// Reads all that is whole.
pub(crate) fn advance<S: Sieve>(
    alloc: Global,
    sieve: &S,
    progress: &mut Progress,
) -> Result<(), Memory>
    ensures stands { (bytes : List ℕ) → StandsFor S.picks progress.old bytes
        → StandsFor S.picks progress.new bytes }
    ensures idle { OnOk result (IsIdle progress.new) }
{
    'steps: loop {
        if !step(alloc, sieve, progress)? {
            return Ok(());
        }
    }
}

/// Holds a piece more. What was read is let go.
pub(crate) fn hold(alloc: Global, progress: &mut Progress, piece: &[u8]) -> Result<(), Memory>
    ensures ok { OnOk result ((picks : List ℕ → Bool) (bytes : List ℕ)
        → StandsFor picks progress.old bytes → StandsFor picks progress.new (bytes ++ piece.now)) }
    ensures err { OnErr result ((picks : List ℕ → Bool) (bytes : List ℕ)
        → StandsFor picks progress.old bytes → StandsFor picks progress.new bytes) }
{
    if progress.fault.is_some() {
        return Ok(());
    }
    if progress.start == 0 {
        progress.held.extend(piece)?;
        return Ok(());
    }
    let mut held = Octets::from_slice(alloc, progress.left())?;
    held.extend(piece)?;
    progress.start = 0;
    progress.held = held;
    Ok(())
}
