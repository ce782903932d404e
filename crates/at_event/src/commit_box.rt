//! A commit's event in a box of its own.

ghost use Rattle.std.specs.Prelude.{◌≡◌, IfOk};

use crate::event::CommitEvent;
use at_cid::Memory;
use std::alloc::Global;
use std::marker::Model;

/// A commit's event in a box of its own, so that an event of another kind weighs little.
#[derive(Debug, Drop)]
pub struct CommitBox {
    commit: Box<CommitEvent>,
}

impl Model for CommitBox {
    ghost use Rattle.at_event.specs.declared.event.CommitEvent.{CommitEvent};

    ghost Value = { CommitEvent };

    ghost view = { λ a. a.commit.value };
}

impl CommitBox {
    /// Puts it into a box.
    pub fn new(alloc: Global, commit: CommitEvent) -> Result<CommitBox, Memory>
        ensures { IfOk result (λ made. made ≡ commit) }
    {
        Ok(CommitBox {
            commit: Box::new(alloc, commit)?,
        })
    }

    /// The commit's event.
    pub fn get(&self) -> &CommitEvent
        ensures { result.now ≡ self.now }
    {
        &self.commit
    }
}
