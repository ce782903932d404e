//! Reading a group of records.

ghost use Rattle.std.specs.Prelude.{◌≡◌, ◌≤◌, ◌<◌, ◌+◌, IsTrue, length};
ghost use Rattle.relay_io.specs.declared.feed.TheConstants.{LONGEST_FEED_MESSAGE};
ghost use Rattle.relay_row.specs.declared.limits.TheConstants.{MOST_ROWS};
ghost use Rattle.store_take.specs.Batches.{message_from};
ghost use Rattle.take_run.specs.Groups.{IsGroup, ReadFailed, bytes_together};
ghost use Rattle.take_run.specs.Tapes.{AreRecords, encoded_records};

use relay_io::{LONGEST_FEED_MESSAGE, Source};
use relay_row::MOST_ROWS;
use std::alloc::Global;
use store_take::Message;
use tape::{Record, Tape, TapeFault};

/// What follows on a group.
#[derive(Clone, Copy, Debug, PartialEq, Eq)]
pub(crate) enum Rest {
    /// Further records, or none.
    More,
    /// Nothing: the tape has ended.
    Nothing,
    /// A fault.
    Fault(TapeFault),
}

/// The messages of records, and what follows on them.
#[derive(Drop)]
pub(crate) struct Group {
    pub(crate) messages: Vec<Message>,
    pub(crate) rest: Rest,
}

/// Reads the next group: at most `MOST_ROWS` records, and no further one after `LONGEST_FEED_MESSAGE` bytes of messages.
pub(crate) fn read_group<I: Source>(alloc: Global, tape: &mut Tape, input: &mut I) -> Group
    ensures read { IsTrue I.tells → IsGroup tape.old (I.left input.old) tape.new
        (I.left input.new) result.messages.items result.rest }
    ensures records { AreRecords result.messages.items }
    ensures few { length result.messages.items ≤ MOST_ROWS }
    ensures bytes { bytes_together result.messages.items
        < LONGEST_FEED_MESSAGE + LONGEST_FEED_MESSAGE }
    ensures some { result.rest ≡ Rest.More → tape.old.place < tape.new.place }
    ensures place { tape.new.place ≡ tape.old.place + length
        (encoded_records result.messages.items) }
    ensures most { tape.new.most ≡ tape.old.most }
    ensures counts { I.faults input.old ≤ I.faults input.new }
    ensures failed { ReadFailed result.rest (I.faults input.old) (I.faults input.new) }
{
    let mut messages = Vec::new(alloc);
    let mut size: usize = 0;
    'reading: while messages.len() < MOST_ROWS && size < LONGEST_FEED_MESSAGE {
        if messages.reserve(1).is_err() {
            let rest = Rest::Fault(TapeFault::Memory);
            return Group { messages, rest };
        }
        match tape.next(input) {
            Ok(Some(record)) => {
                size = size.saturating_add(record.message.as_slice().len());
                messages.push_reserved(message_of(record));
            }
            Ok(None) => {
                let rest = Rest::Nothing;
                return Group { messages, rest };
            }
            Err(fault) => {
                let rest = Rest::Fault(fault);
                return Group { messages, rest };
            }
        }
    }
    let rest = Rest::More;
    Group { messages, rest }
}

// The message of a record.
fn message_of(found: Record) -> Message
    ensures { result ≡ message_from found.host found.message }
{
    Message {
        host: found.host,
        bytes: found.message,
    }
}
