//! What a commit says of the one before it.

use at_cid::Cid;
use at_syntax::Tid;

/// The revision of an account's last commit, and the root of its records.
#[derive(Clone, Copy, Debug)]
pub(crate) struct Past {
    pub rev: Tid,
    pub data_root: Cid,
}
