//! A repository, read in pieces.

ghost use Rattle.std.specs.Prelude.{◌≡◌, ◌≢◌, ◌≤◌, ◌++◌, ℕ, List, [], length, IsTrue, IfOk, IfErr, IsErrOf, Err};
ghost use Rattle.at_cid.specs.Counts.{Rose};
ghost use Rattle.at_cid.specs.Link.{IsBytes};
ghost use Rattle.at_car.specs.Standing.{StandsFor};
ghost use Rattle.mst_whole.specs.Walks.{is_node_block};
ghost use Rattle.repo_sync.specs.Scans.{IsQuiet, Scans, ScansAs};

use crate::fault::RepoFault;
use crate::limits::MOST_REPOSITORY_BYTES;
use at_car::{CarFault, Kept, Scan};
use at_cid::ghost_bytes;
use mst_whole::NodeSieve;
use relay_io::Repos;
use std::alloc::Global;

// The most bytes that are asked for at once.
const PIECE: usize = 4096;

// Hands on what one call gives.
fn take_piece<R: Repos>(repos: &mut R, scan: &mut Scan<NodeSieve>) -> Result<usize, RepoFault>
    ensures moved { IfOk result (λ n. (piece : List ℕ) × (length piece ≡ n) × IsBytes piece
        × (IsTrue R.tells → R.left repos.old ≡ piece ++ R.left repos.new)
        × ((bytes : List ℕ) → StandsFor is_node_block scan.old.progress bytes
        → StandsFor is_node_block scan.new.progress (bytes ++ piece))) }
    ensures within { IfOk result (λ n. n ≤ PIECE) }
    ensures end { IfOk result (λ n. IsTrue R.tells → n ≡ 0 → R.left repos.old ≡ []) }
    ensures counts { R.faults repos.old ≤ R.faults repos.new }
    ensures steady { result ≢ Err RepoFault.Failed → R.faults repos.new ≡ R.faults repos.old }
    ensures failed { IsErrOf result RepoFault.Failed
        → Rose (R.faults repos.old) (R.faults repos.new) }
    ensures quiet { IfErr result IsQuiet }
    ensures same { IsTrue R.tells → (did : List ℕ)
        → R.repository repos.new did ≡ R.repository repos.old did }
{
    let mut room = [0; PIECE];
    let count = repos.read(&mut room)?;
    let piece = &room[..count];
    ghost_bytes(piece);
    scan.push(piece)?;
    Ok(count)
}

// What is kept of the CAR whose bytes were pushed.
fn finish(scan: Scan<NodeSieve>) -> Result<Kept, RepoFault>
    ensures { (bytes : List ℕ) → StandsFor is_node_block scan.progress bytes
        → ScansAs result bytes }
{
    match scan.finish() {
        Ok(kept) => Ok(kept),
        Err(CarFault::Memory) => Err(RepoFault::Memory),
        Err(_) => Err(RepoFault::BadCar),
    }
}

/// What is kept of the opened repository, which is read to its end, or until more bytes were given than one has at most.
pub fn scan_repo<R: Repos>(alloc: Global, repos: &mut R) -> Result<Kept, RepoFault>
    ensures scanned { IsTrue R.tells → Scans result (R.left repos.old) }
    ensures some { (bytes : List ℕ) × IsBytes bytes × Scans result bytes }
    ensures same { IsTrue R.tells → (did : List ℕ)
        → R.repository repos.new did ≡ R.repository repos.old did }
    ensures counts { R.faults repos.old ≤ R.faults repos.new }
    ensures steady { result ≢ Err RepoFault.Failed → R.faults repos.new ≡ R.faults repos.old }
    ensures failed { IsErrOf result RepoFault.Failed
        → Rose (R.faults repos.old) (R.faults repos.new) }
{
    let mut scan = Scan::new(alloc, NodeSieve::new(alloc));
    let mut given: u64 = 0;
    'pieces: loop {
        let count = take_piece(repos, &mut scan)?;
        if count == 0 {
            return finish(scan);
        }
        given += count as u64;
        if given > MOST_REPOSITORY_BYTES {
            return Err(RepoFault::TooLong);
        }
    }
}
