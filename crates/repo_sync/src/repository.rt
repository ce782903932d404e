//! Whole repositories.

ghost use Rattle.std.specs.Prelude.{◌≡◌, ◌≢◌, ◌≤◌, ◌<◌, ℕ, List, Err, IsTrue, IfOk, IfErr, IsErrOf};
ghost use Rattle.at_cid.specs.declared.limits.TheConstants.{NUMBERS};
ghost use Rattle.at_cid.specs.Counts.{Rose};
ghost use Rattle.repo_sync.specs.Checks.{ChecksExactly, IsOfSome, IsRefused};
ghost use Rattle.repo_sync.specs.Repository.{IsWhole};

use crate::fault::RepoFault;
use crate::found::Found;
use crate::judging::judge;
use crate::scanning::scan_repo;
use at_syntax::Tid;
use relay_io::Repos;
use std::alloc::Global;

/// Checks the opened repository of an account, which is read to its end, or until more than
/// [`MOST_REPOSITORY_BYTES`](crate::MOST_REPOSITORY_BYTES) bytes were given.
///
/// It is refused with the first of these that applies: more bytes than that; no CAR; a first root that isn't named or whose
/// block is missing; a block that is no commit object; another account's commit; a revision below the least; the first
/// fault of the tree. A read that fails ends it at once. Of the blocks only the nodes and the commit object are held, and
/// each is hashed once; behind a fault of the CAR the rest is only counted. (Repository specification, version 3.)
pub fn check_repo<R: Repos>(
    alloc: Global,
    repos: &mut R,
    did: &str,
    least: Option<Tid>,
) -> Result<Found, RepoFault>
    ensures whole { IfOk result (λ found. IsTrue R.tells
        → IsWhole did.now least (R.left repos.old) found) }
    ensures refused { IfErr result (λ fault. IsTrue R.tells
        → IsRefused did.now least (R.left repos.old) fault) }
    ensures exact { IsTrue R.tells → ChecksExactly did.now least (R.left repos.old) result }
    // What is answered is true of some bytes also where nothing is told of them.
    ensures some { IsOfSome did.now least result }
    ensures same { IsTrue R.tells → (did : List ℕ)
        → R.repository repos.new did ≡ R.repository repos.old did }
    ensures records { IfOk result (λ found. found.records < NUMBERS) }
    ensures counts { R.faults repos.old ≤ R.faults repos.new }
    // Where a read failed, that is the answer.
    ensures steady { result ≢ Err RepoFault.Failed → R.faults repos.new ≡ R.faults repos.old }
    ensures failed { IsErrOf result RepoFault.Failed
        → Rose (R.faults repos.old) (R.faults repos.new) }
{
    let kept = scan_repo(alloc, repos)?;
    judge(alloc, &kept, did, least)
}
