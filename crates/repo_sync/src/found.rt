//! What a repository or a `#sync` event shows.

ghost use Rattle.std.specs.Prelude.{◌≡◌};
ghost use Rattle.repo_sync.specs.Repository.{found_of};

use at_cid::{Cid, Octets};
use at_commit::Commit;
use at_event::Head;

/// What was found of an account's repository.
#[derive(Debug, Drop)]
pub struct Found {
    /// The revision, the root of the tree and the link of the commit.
    pub head: Head,
    /// The digest that the signature is made over.
    pub digest: [u8; 32],
    /// The signature.
    pub sig: Octets,
    /// The block of the commit object.
    pub block: Octets,
    /// How many records there are; 0 where none were looked for.
    pub records: u64,
}

/// What a commit object and its block show, with so many records.
pub(crate) fn found_in(link: Cid, block: Octets, commit: Commit, records: u64) -> Found
    ensures { result ≡ found_of link block commit records }
{
    let head = Head {
        rev: commit.rev,
        data_root: commit.data_root,
        commit: link,
    };
    let digest = commit.digest();
    Found {
        head,
        digest,
        sig: commit.sig,
        block,
        records,
    }
}
