//! The operations of a commit event.

ghost use Rattle.std.specs.Prelude.{◌≡◌, ◌==◌, ◌∷◌, ◌++◌, [], length, slice_get, option_map, OnOk, OnErr};

use at_cid::{Cid, Memory, Words};
use std::alloc::Global;
use std::marker::Model;

/// What an operation does to its record.
#[derive(Clone, Copy, Debug, PartialEq, Eq)]
pub enum Action {
    /// `create`
    Create,
    /// `update`
    Update,
    /// `delete`
    Delete,
    /// Any other text.
    Other,
}

/// One operation of a commit, as the host states it (Lexicon `com.atproto.sync.subscribeRepos`, `repoOp`).
#[derive(Debug, Drop)]
pub struct EventOp {
    /// What is done.
    pub action: Action,
    /// The collection and the record key, with `/` between them; any text, until it is checked.
    pub path: Words,
    /// The new record.
    pub cid: Option<Cid>,
    /// The record before.
    pub prev: Option<Cid>,
}

/// Operations in the order of the message.
#[derive(Debug, Drop)]
pub struct EventOps {
    ops: Vec<EventOp>,
}

impl Model for EventOps {
    ghost use Rattle.std.specs.Prelude.{List};
    ghost use Rattle.at_event.specs.declared.ops.EventOp.{EventOp};

    ghost Value = { List EventOp };

    ghost view = { λ a. a.ops.items };
}

impl EventOps {
    /// No operations.
    pub fn new(alloc: Global) -> EventOps
        ensures { result ≡ [] }
    {
        EventOps {
            ops: Vec::new(alloc),
        }
    }

    /// How many there are.
    pub fn len(&self) -> usize
        ensures { result ≡ length self.now }
    {
        self.ops.len()
    }

    /// The operation at a place, from 0.
    pub fn get(&self, i: usize) -> Option<&EventOp>
        ensures { option_map (λ op. op.now) result ≡ slice_get self.now i }
    {
        self.ops.get(i)
    }

    /// Whether there are none.
    pub fn is_empty(&self) -> bool
        ensures { result ≡ (length self.now == 0) }
    {
        self.ops.is_empty()
    }

    /// The operations.
    pub fn as_slice(&self) -> &[EventOp]
        ensures { result.now ≡ self.now }
    {
        self.ops.as_slice()
    }

    /// Adds an operation behind the others.
    pub fn push(&mut self, op: EventOp) -> Result<(), Memory>
        ensures ok { OnOk result (self.new ≡ self.old ++ op ∷ []) }
        ensures err { OnErr result (self.new ≡ self.old) }
    {
        self.ops.push(op)?;
        Ok(())
    }
}
