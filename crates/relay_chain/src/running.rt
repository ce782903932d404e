//! The top call.

ghost use Rattle.std.specs.Prelude.{◌≡◌, ◌≢◌, ◌⊎◌, ◌↔◌, ℕ, List, IsTrue, MatchOption, map, string_bytes};
ghost use Rattle.at_cid.specs.Counts.{Rose};
ghost use Rattle.relay_row.specs.declared.row.Row.{Row as TheRow};
ghost use Rattle.relay_store.specs.Opening.{BothOnlyRead};
ghost use Rattle.run_base.specs.Place.{tells_of};
ghost use Rattle.relay_chain.specs.Chained.{ChainRan};
ghost use Rattle.relay_chain.specs.Disks.{HaveJournal, two_disks};
ghost use Rattle.relay_chain.specs.Runs.{AreHost, second_place};

use crate::commands::Chains;
use at_authority::TrustAll;
use at_syntax::host_ok;
use relay_disk::Disk;
use relay_io::{Clock, Repos, Sink};
use relay_store::LONGEST;
use run_base::{Asked, Outside, Pair, Status};
use std::alloc::Global;

/// Takes what the first two disks' relay serves into the journal of the second two, as messages of the host that is the only word. No
/// log is longer than 2^40 bytes.
pub fn chain<D: Disk, R: Repos, C: Clock, O: Sink>(
    alloc: Global,
    words: &[String],
    first: &mut D,
    first_other: &mut D,
    second: &mut D,
    second_other: &mut D,
    repos: &mut R,
    clock: &mut C,
    out: &mut O,
) -> Status
    ensures ran { let served = two_disks D.tells (D.view first.old) (D.view first_other.old) in
        let served_now = two_disks D.tells (D.view first.new) (D.view first_other.new) in
        let before = second_place (D.view second.old) (D.view second_other.old)
        (C.moments clock.old) (R.repository repos.old) (O.written out.old)
        (R.faults repos.old) (C.faults clock.old) (O.faults out.old) in
        let after = second_place (D.view second.new) (D.view second_other.new)
        (C.moments clock.new) (R.repository repos.new) (O.written out.new)
        (R.faults repos.new) (C.faults clock.new) (O.faults out.new) in
        (host : List ℕ) → AreHost (map string_bytes words.now) host
        → ChainRan (tells_of D.tells C.tells R.tells O.tells) host LONGEST
        served served_now before after
        ((repos.new ≡ repos.old) × (clock.new ≡ clock.old) × (out.new ≡ out.old)) result }
    // A pair that holds no journal is only read, and nothing else is done.
    ensures no_first_journal { IsTrue D.tells → ((J : List TheRow)
        → HaveJournal J (two_disks D.tells (D.view first.old) (D.view first_other.old)) → ⊥)
        → (result ≢ Status.Disk → BothOnlyRead (D.view first.old) (D.view first_other.old)
        (D.view first.new) (D.view first_other.new))
        × (second.new ≡ second.old) × (second_other.new ≡ second_other.old)
        × (repos.new ≡ repos.old) × (clock.new ≡ clock.old) × (out.new ≡ out.old) }
    ensures no_second_journal { IsTrue D.tells → ((J : List TheRow)
        → HaveJournal J (two_disks D.tells (D.view second.old) (D.view second_other.old)) → ⊥)
        → ((Rose (D.view second.old).faults (D.view second.new).faults
        ⊎ Rose (D.view second_other.old).faults (D.view second_other.new).faults → ⊥)
        → BothOnlyRead (D.view second.old) (D.view second_other.old)
        (D.view second.new) (D.view second_other.new))
        × (repos.new ≡ repos.old) × (clock.new ≡ clock.old) × (out.new ≡ out.old) }
    // Words that are no host's name touch nothing, and no others end so.
    ensures usage { (result ≡ Status.Usage)
        ↔ ((host : List ℕ) → AreHost (map string_bytes words.now) host → ⊥) }
    ensures disks { result ≡ Status.Usage
        → (first.new ≡ first.old) × (first_other.new ≡ first_other.old)
        × (second.new ≡ second.old) × (second_other.new ≡ second_other.old) }
    ensures others { result ≡ Status.Usage
        → (repos.new ≡ repos.old) × (clock.new ≡ clock.old) × (out.new ≡ out.old) }
{
    match host_in(words) {
        Some(host) => {
            let mut served = Pair {
                one: first,
                two: first_other,
            };
            let mut judges = TrustAll;
            let mut outside = Outside {
                pair: Pair {
                    one: second,
                    two: second_other,
                },
                asked: Asked {
                    judges: &mut judges,
                    repos,
                    clock,
                },
                out,
            };
            outside.chain(alloc, LONGEST, host, &mut served)
        }
        None => Status::Usage,
    }
}

// The host that the words name, where they are its name alone.
fn host_in(words: &[String]) -> Option<&str>
    ensures { MatchOption result
        ((host : List ℕ) → AreHost (map string_bytes words.now) host → ⊥)
        (λ host. AreHost (map string_bytes words.now) host.now) }
{
    match words {
        [word] if host_ok(word.as_str()) => Some(word.as_str()),
        _ => None,
    }
}
