//! What a store asks, as a row words it: `PIECE FAILING DID=BYTES ..`, which are repositories of which so many bytes are given at a
//! call; and `MOMENTS FAILING`. FAILING are the numbers of the calls that fail, with a comma between two, and `-` is none.

ghost use Rattle.std.specs.Prelude.{◌≤◌, ◌-◌, All, IsTrue};
ghost use Rattle.at_cid.specs.declared.limits.TheConstants.{NUMBERS};

use at_cid::NUMBERS;
use relay_io::{ListClock, MemoryRepos, Repository};
use vector_lines::Case;

/// The repositories of a row's next part.
pub fn repos_of(case: &mut Case<'_>) -> Option<MemoryRepos> {
    let text = case.part(" | ");
    let rest = case.turn(text);
    let piece = case.size(" ").max(1);
    let failing = case.numbers(" ");
    let mut repositories = Vec::new(case.alloc);
    for _ in 0..text.split('=').count().saturating_sub(1) {
        let did = case.words("=");
        let bytes = case.octets(" ");
        case.did(repositories.push(Repository { did, bytes }));
    }
    case.back(rest);
    case.gave(MemoryRepos::new(case.alloc, repositories, piece, failing.as_slice()))
}

fn are_moments(moments: &[u64]) -> bool
    ensures { IsTrue result → All (λ moment. moment ≤ NUMBERS - 1) moments.now }
{
    moments.iter().all(|moment| *moment < NUMBERS)
}

/// The clock of a row's next part.
pub fn clock_of(case: &mut Case<'_>) -> Option<ListClock> {
    let moments = case.numbers(" ");
    let failing = case.numbers(" | ");
    if moments.is_empty() || !are_moments(moments.as_slice()) {
        return None;
    }
    case.gave(ListClock::new(case.alloc, moments.as_slice(), failing.as_slice()))
}
