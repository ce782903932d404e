//! What one relay serves, taken by a second one that follows it.

ghost use Rattle.std.specs.Prelude.{◌≡◌, ◌≢◌, ◌≤◌, true, List, IsTrue};
ghost use Rattle.at_syntax.specs.Host.{is_host};
ghost use Rattle.gate_log.specs.declared.limits.TheConstants.{LAST_END};
ghost use Rattle.gate_log.specs.declared.picking.Side.{Side as TheSide};
ghost use Rattle.relay_row.specs.declared.row.Row.{Row as TheRow};
ghost use Rattle.relay_store.specs.Opening.{BothOnlyRead};
ghost use Rattle.run_base.specs.Ends.{Caused, HoldsNone};
ghost use Rattle.run_base.specs.Place.{Part, SamePair};
ghost use Rattle.relay_chain.specs.Chained.{ChainRan};
ghost use Rattle.relay_chain.specs.Disks.{HaveJournal, disks_of};

use crate::journals::Journals;
use at_authority::TrustAll;
use relay_disk::Disk;
use relay_io::{Clock, Repos, Sink};
use run_base::{Outside, Pair, Seen, Status};
use std::alloc::Global;
use take_run::{Run, Tally};

/// The command of a relay that follows another one.
pub trait Chains: Seen {
    /// Takes what the journal of the first two disks serves after the host's cursor as messages of the host into the journal of the
    /// second two, none after the host's end, and writes the report. Each home is right and each signature good, as the first relay has
    /// found them. No row of either log is to end past `most`, which is in bytes.
    fn chain<D: Disk>(
        &mut self,
        alloc: Global,
        most: u64,
        host: &str,
        first: &mut Pair<D>,
    ) -> Status
        requires most { most ≤ LAST_END }
        requires host { is_host host.now ≡ true }
        ensures ran { ChainRan Self.tells host.now most
            (disks_of D.tells D.view first.old) (disks_of D.tells D.view first.new)
            (Self.place self.old) (Self.place self.new)
            ((part : Part) → Self.stays part self.old self.new) result }
        // A pair that holds no journal is only read, and nothing else is done.
        ensures no_first_journal { let old = disks_of D.tells D.view first.old in
            let new = disks_of D.tells D.view first.new in
            IsTrue D.tells → ((J : List TheRow) → HaveJournal J old → ⊥)
            → (result ≢ Status.Disk → BothOnlyRead old.one old.two new.one new.two)
            × ((side : TheSide) → Self.rests side self.old self.new)
            × ((part : Part) → Self.stays part self.old self.new) }
        ensures no_second_journal { let old = Self.place self.old in
            let new = Self.place self.new in HoldsNone Self.tells old
            → ((Caused Status.Disk old new → ⊥) → BothOnlyRead old.one old.two new.one new.two)
            × ((part : Part) → Self.stays part self.old self.new) }
        ensures first { SamePair first.old first.new }
        ensures later { Self.later self.old self.new };
}

impl<S: Disk, R: Repos, C: Clock, O: Sink> Chains
    for Outside<'_, '_, '_, '_, '_, '_, S, TrustAll, R, C, O> {
    fn chain<D: Disk>(
        &mut self,
        alloc: Global,
        most: u64,
        host: &str,
        first: &mut Pair<D>,
    ) -> Status {
        let source = match first.open(alloc, most) {
            Ok(source) => source,
            Err(fault) => return Status::from(fault),
        };
        let store = match self.pair.open(alloc, most) {
            Ok(store) => store,
            Err(fault) => return Status::from(fault),
        };
        let tally = Tally::new(alloc);
        let mut run = Run { store, tally };
        self.take_pair(alloc, &mut run, host, &source, first)
    }
}
