//! What a commit object says.

ghost use Rattle.std.specs.Prelude.{◌≡◌, IfOk};
ghost use Rattle.sha2.specs.Sha256.{sha256};

use at_cid::{Cid, Memory, Octets, Words};
use at_syntax::Tid;
use sha2::{Digest, Sha256};

/// A commit object of a repository.
#[derive(Debug, Drop)]
pub struct Commit {
    /// The account's DID.
    pub did: Words,
    /// The repository's revision.
    pub rev: Tid,
    /// The object's `data`: the root of the repository's tree, a link of kind Node.
    pub data_root: Cid,
    /// The signature.
    pub sig: Octets,
    /// What the signature covers: the object's encoding without `sig`.
    pub unsigned: Octets,
}

impl Commit {
    /// The digest that the signature is made over: SHA-256 of `unsigned`.
    pub fn digest(&self) -> [u8; 32]
        ensures { result ≡ sha256 self.now.unsigned }
    {
        Sha256::digest(self.unsigned.as_slice())
    }

    /// A copy. The only error is running out of memory.
    pub fn try_clone(&self) -> Result<Commit, Memory>
        ensures { IfOk result (λ made. made ≡ self.now) }
    {
        Ok(Commit {
            did: self.did.try_clone()?,
            rev: self.rev,
            data_root: self.data_root,
            sig: self.sig.try_clone()?,
            unsigned: self.unsigned.try_clone()?,
        })
    }
}
