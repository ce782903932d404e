//! Rows of events whose messages aren't encoded yet.

ghost use Rattle.std.specs.Prelude.{◌≡◌, ◌<◌, IfOk};
ghost use Rattle.at_event.specs.Writing.{out_of};
ghost use Rattle.at_cid.specs.declared.limits.TheConstants.{NUMBERS};
ghost use Rattle.relay_row.specs.NewRow.{HasNumber, with_message};

use crate::taken::Taken;
use at_cid::Memory;
use at_event::Event;
use std::alloc::Global;
use std::marker::Model;

/// A row, but for its message, and the event whose message it is to be, if it isn't its own.
#[derive(Debug, Drop)]
struct Parts {
    taken: Taken,
    event: Option<Event>,
}

/// What became of a message that a host sent, before the message that goes out is encoded. It is seen with that message, which is
/// encoded where the row is written, and nowhere else. Its parts stand in a box, so that it weighs little where it is handed on.
#[derive(Debug, Drop)]
pub struct NewRow {
    parts: Box<Parts>,
}

impl Model for NewRow {
    ghost use Rattle.relay_row.specs.declared.taken.Taken.{Taken};

    ghost Value = { Taken };

    ghost use Rattle.relay_row.specs.NewRow.{HasNumber, with_message};

    ghost view = { λ f. with_message f.parts.value.taken f.parts.value.event };

    ghost invariant = { λ f. HasNumber f.parts.value.taken f.parts.value.event };
}

impl NewRow {
    /// A row with its own message, or with none.
    pub fn new(alloc: Global, taken: Taken) -> Result<NewRow, Memory>
        ensures { IfOk result (λ made. made ≡ taken) }
    {
        Ok(NewRow {
            parts: Box::new(alloc, Parts { taken, event: None })?,
        })
    }

    /// A row whose message is that of an event under the row's number.
    pub fn of_event(alloc: Global, taken: Taken, event: Event) -> Result<NewRow, Memory>
        requires { taken.seq < NUMBERS }
        ensures { IfOk result (λ made. made ≡ record taken { message = out_of event taken.seq }) }
    {
        let event = Some(event);
        Ok(NewRow {
            parts: Box::new(alloc, Parts { taken, event })?,
        })
    }

    /// The row, but for its message.
    pub fn parts(&self) -> &Taken
        ensures { record result.now { message = self.now.message } ≡ self.now }
    {
        &self.parts.taken
    }

    /// What is to be encoded: the row, but for its message, and the event whose message it is to be, if it isn't its own.
    pub fn to_encode(&self) -> (&Taken, &Option<Event>)
        ensures row { self.now ≡ with_message result.0.now result.1.now }
        ensures number { HasNumber result.0.now result.1.now }
    {
        (&self.parts.taken, &self.parts.event)
    }

    /// The row, but for its message, to be taken apart.
    pub fn into_parts(self) -> Taken
        ensures { record result { message = self.message } ≡ self }
    {
        Box::into_inner(self.parts).taken
    }
}
