//! What a journal serves, as the messages of a host.

ghost use Rattle.std.specs.Prelude.{◌≡◌, None, List, ℕ, IsTrue};
ghost use Rattle.backfill.specs.StreamPlaces.{left_of};
ghost use Rattle.event_window.specs.Held.{Held};
ghost use Rattle.relay_chain.specs.Streams.{ReadsOn, kept_faults, reads_again, reads_here};

use at_cid::Octets;
use backfill::{StreamPlace, give_next};
use event_window::{Events, EventsFault};
use relay_io::{FeedFault, LONGEST_FEED_MESSAGE};
use take_run::Stream;

/// The messages that follow a cursor, read back out of the events of a journal.
#[derive(Drop)]
pub struct JournalStream<'events, E> {
    /// The events.
    pub events: &'events mut E,
    /// How far the messages were given.
    pub place: StreamPlace,
    /// The fault of the events that ended it. Want of memory isn't kept.
    pub fault: Option<EventsFault>,
}

impl<E: Events> Stream for JournalStream<'_, E> {
    ghost use Rattle.std.proofs.Common.{refl, ◌∙◌};

    ghost ready = { λ s. (s.fault ≡ None)
        × (IsTrue E.tells → (held : Held) × E.holds s.events.now held) };

    ghost leaves = { λ s given. IsTrue E.tells
        × ((held : Held) × E.holds s.events.now held × (given ≡ left_of held s.place)) };

    ghost faults = { λ s. kept_faults s.fault };

    ghost later = { λ old new. (new.events.ghost_name ≡ old.events.ghost_name)
        × E.later old.events.now new.events.now
        × ReadsOn E.tells old.fault (E.faults old.events.now)
        new.fault (E.faults new.events.now) };

    ghost later_here = { λ s. (
      refl,
      E.later_here s.events.now,
      reads_here E.tells s.fault
          (E.faults s.events.now),
    ) };

    ghost later_again = { λ one two three first second. (
      second.0 ∙ first.0,
      E.later_again one.events.now
          two.events.now three.events.now first.1 second.1,
      reads_again E.tells one.fault two.fault three.fault (E.faults one.events.now)
          (E.faults two.events.now) (E.faults three.events.now) first.2 second.2,
    ) };

    // A message that is longer than a feed may give, which no relay writes, is as running out of memory.
    fn next_message(&mut self, room: &mut Octets) -> Result<bool, FeedFault> {
        let mut place = self.place;
        match give_next(self.events, &mut place, room) {
            Ok(more) => {
                if more && room.len() > LONGEST_FEED_MESSAGE {
                    return Err(FeedFault::Memory);
                }
                self.place = place;
                Ok(more)
            }
            Err(EventsFault::Memory) => Err(FeedFault::Memory),
            Err(fault) => {
                self.fault = Some(fault);
                Err(FeedFault::Failed)
            }
        }
    }
}
