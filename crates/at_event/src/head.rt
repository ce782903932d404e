//! The head of a repository.

use at_cid::Cid;
use at_syntax::Tid;

/// The newest commit of a repository that is known.
#[derive(Clone, Copy, Debug, PartialEq, Eq)]
pub struct Head {
    /// The revision of the commit.
    pub rev: Tid,
    /// The `data` of the commit object: the link of the tree's top node.
    pub data_root: Cid,
    /// The link of the commit object.
    pub commit: Cid,
}
