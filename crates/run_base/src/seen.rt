//! What contracts see of the outside.
ghost use Rattle.run_base.specs.Place.{Part, Place, Tells, IsLater, faults_of, place_of, rests_of, stays_of, tells_of};
ghost use Rattle.gate_log.specs.declared.picking.Side.{Side as TheSide};

use crate::outside::Outside;
use at_authority::Judges;
use relay_disk::Disk;
use relay_io::{Clock, Repos, Sink};

/// What is seen of the parts that a command is handed.
pub trait Seen {
    /// Which parts tell what they hold.
    ghost tells: { Tells };

    /// What the parts hold, and how often each has failed.
    ghost place: { Self → Place };

    /// This part is what it was.
    ghost stays: { Part → Self → Self → Type 0 };

    /// The disk of this side is the very object that it was.
    ghost rests: { TheSide → Self → Self → Type 0 };

    /// The same parts, later: no count of failures fell.
    ghost later: { Self → Self → Type 0 };
}

impl<D: Disk, P: Judges, R: Repos, C: Clock, O: Sink> Seen
    for Outside<'_, '_, '_, '_, '_, '_, D, P, R, C, O> {
    ghost tells = { tells_of D.tells C.tells R.tells O.tells };

    ghost place = { place_of D.view P.panel C.moments R.repository O.written
        R.faults C.faults O.faults };

    ghost stays = { stays_of };

    ghost rests = { rests_of };

    ghost later = { IsLater (faults_of D.view R.faults C.faults O.faults) };
}
