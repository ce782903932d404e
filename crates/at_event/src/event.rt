//! An event of a host's stream.

use crate::commit_box::CommitBox;
use crate::kind::EventKind;
use crate::ops::EventOps;
use at_cbor::Value;
use at_cid::{Cid, Octets, Words};
use at_syntax::Tid;
use std::marker::Model;

/// A `#commit`: a repository has a new commit.
#[derive(Debug, Drop)]
pub struct CommitEvent {
    /// The DID of the repository's account.
    pub repo: Words,
    /// The revision of the commit.
    pub rev: Tid,
    /// The revision of the commit before.
    pub since: Option<Tid>,
    /// The `data` of the commit before, of kind Node.
    pub prev_data: Option<Cid>,
    /// The link of the commit object, of kind Node.
    pub commit: Cid,
    /// Whether the host left operations out.
    pub too_big: bool,
    /// A CAR of blocks, as it came.
    pub blocks: Octets,
    /// What was done to the records.
    pub ops: EventOps,
}

/// A `#sync`: a repository's state is stated anew.
#[derive(Debug, Drop)]
pub struct SyncEvent {
    /// The DID of the account.
    pub did: Words,
    /// The revision of the commit.
    pub rev: Tid,
    /// A CAR with the commit object, as it came.
    pub blocks: Octets,
}

/// An `#account`: an account's status at its host.
#[derive(Debug, Drop)]
pub struct AccountEvent {
    /// Whether the host serves the repository.
    pub active: bool,
    /// Why not, where the host says so; at most 64 bytes.
    pub status: Option<Words>,
}

/// What an event says.
#[derive(Debug, Drop)]
pub enum Body {
    /// A repository has a new commit.
    Commit(CommitBox),
    /// A repository's state is stated anew.
    Sync(SyncEvent),
    /// The account's identity may have changed.
    Identity,
    /// The account's status at its host.
    Account(AccountEvent),
}

/// An event, with all that came with it (Lexicon `com.atproto.sync.subscribeRepos`).
#[derive(Debug, Drop)]
pub struct Event {
    /// Its number in the stream, below 2^53.
    pub seq: u64,
    /// The DID of the account.
    pub did: Words,
    /// When it was made, at most 64 bytes, not read as a time.
    pub time: Words,
    /// What it says.
    pub body: Body,
    /// The payload, a map from which all other fields are read, but for its `blocks` where the body has them: an empty
    /// string of bytes stands in their place, so that they are held once.
    pub rest: Value,
}

impl Body {
    ghost use Rattle.std.specs.Prelude.{◌≡◌, option_map};
    ghost use Rattle.at_event.specs.Writing.{blocks_of};

    /// The blocks, where it states some.
    pub(crate) fn blocks(&self) -> Option<&Octets>
        ensures { option_map (λ blocks. blocks.now) result ≡ blocks_of self.now }
    {
        match self {
            Body::Commit(commit) => Some(&commit.get().blocks),
            Body::Sync(sync) => Some(&sync.blocks),
            Body::Identity | Body::Account(_) => None,
        }
    }
}

impl Model for Event {
    ghost use Rattle.at_event.specs.Seen.{Seen};

    ghost Value = { Seen };

    ghost use Rattle.std.specs.Coded.{codes};
    ghost use Rattle.at_cbor.specs.ItemCode.{coded_item};

    ghost coded = { Prim.hlevel (codes, coded_item) };

    ghost use Rattle.at_event.specs.Events.{seen_of, IsInside};

    ghost view = { seen_of };

    ghost invariant = { IsInside };
}

impl Event {
    ghost use Rattle.std.specs.Prelude.{◌≡◌};
    ghost use Rattle.at_event.specs.Events.{IsEvent};
    ghost use Rattle.at_event.specs.Table.{event_kind_of};

    /// Does nothing when it runs: what each event owes its payload, for the prover.
    #[inline]
    pub fn ghost_event(&self)
        ensures { IsEvent self.now }
    {
        let _kind = self.kind();
    }

    /// Its kind.
    pub fn kind(&self) -> EventKind
        ensures value { result ≡ event_kind_of self.now.body }
        // What each event owes its payload.
        ensures event { IsEvent self.now }
    {
        match &self.body {
            Body::Commit(_) => EventKind::Commit,
            Body::Sync(_) => EventKind::Sync,
            Body::Identity => EventKind::Identity,
            Body::Account(_) => EventKind::Account,
        }
    }
}
