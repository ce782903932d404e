//! How far the bytes of a CAR were read.

ghost use Rattle.std.specs.Prelude.{◌≤◌, length};

use crate::fault::CarFault;
use crate::sifting::Sifted;
use at_cid::{Cids, Octets};

/// How far the bytes so far were read: the roots, where the header was; what is held of the blocks; the bytes from
/// `start` on, which begin at this place of the file and aren't read yet; and the fault, where there is one.
#[derive(Drop)]
pub(crate) struct Progress {
    pub roots: Option<Cids>,
    pub sifted: Sifted,
    pub place: u64,
    pub held: Octets,
    pub start: usize,
    pub fault: Option<CarFault>,
    ghost inside: { start ≤ length held },
}

/// What was done at the front of some bytes.
#[derive(Drop)]
pub(crate) enum Taken {
    /// A section of so many bytes was taken.
    Section(usize),
    Fault(CarFault),
}
