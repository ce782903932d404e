//! Giving the events of a store out.

ghost use Rattle.std.specs.Prelude.{◌≡◌, List, None, IsTrue, refl};
ghost use Rattle.std.proofs.Common.{◌∙◌, ap};
ghost use Rattle.event_window.specs.Held.{Held, given_after};
ghost use Rattle.relay_row.specs.declared.row.Row.{Row as TheRow};
ghost use Rattle.store_read.specs.Events.{HasEvents, IsReadOf};
ghost use Rattle.store_read.specs.Rereading.{IsReread, reread_again, reread_here};
ghost use Rattle.relay_store.specs.Shown.{held_by};
ghost use Rattle.relay_store.specs.Store.{Keeps, seen_in};

use crate::buffer::Buffer;
use crate::finding::find_shown;
use at_cid::Octets;
use event_window::{Events, EventsFault};
use relay_disk::Disk;
use relay_store::Store;
use std::alloc::Global;

/// The events of a store, which are read back from the disk that it is on, body by body: the one that was read last is kept.
///
/// P is the type of that body.
pub struct EventReader<'a, D, P = Buffer> {
    store: &'a Store,
    disk: &'a mut D,
    // How many places stand behind the one that was looked at first, last time.
    left: usize,
    // The number of the event that was given last, or 0, and the place where damage was found last.
    given: u64,
    damage: Option<u64>,
    buffer: P,
}

impl<D, P: Drop> Drop for EventReader<'_, D, P> {
    ghost use Rattle.std.specs.Prelude.{◌≡◌};

    fn drop(self)
        ensures disk { self.exit.1.0.now ≡ self.entry.disk.now }
    {
        let EventReader {
            store: _,
            disk: _,
            left: _,
            given: _,
            damage: _,
            buffer,
        } = self;
        drop(buffer);
    }
}

/// Its events, read back from the disk that it is on. Nothing is read yet.
pub fn events<'a, D: Disk>(store: &'a Store, alloc: Global, disk: &'a mut D) -> EventReader<'a, D>
    ensures held { IsTrue D.tells → (J : List TheRow)
        → Keeps J (seen_in store.now) (D.view disk.old)
        → HasEvents (seen_in result.store.now) (D.view result.disk.now) result.buffer
        (held_by J) }
    ensures store { result.store.now ≡ store.now }
    ensures disk { result.disk.now ≡ disk.old }
    ensures same_reference { result.disk.ghost_name ≡ disk.entry.ghost_name }
    ensures none_given { result.given ≡ 0 }
    ensures no_damage { result.damage ≡ None }
{
    EventReader {
        store,
        disk,
        left: 0,
        given: 0,
        damage: None,
        buffer: Buffer::new(alloc),
    }
}

// The number of the event that was given last, after an answer.
fn given_after(before: u64, answer: &Result<Option<u64>, EventsFault>) -> u64
    ensures { result ≡ given_after before answer.now }
{
    match answer {
        Ok(Some(number)) => *number,
        _ => before,
    }
}

impl<D: Disk> Events for EventReader<'_, D> {
    ghost tells = { D.tells };

    ghost holds = { λ reader held. HasEvents (seen_in reader.store.now)
        (D.view reader.disk.now) reader.buffer held };

    ghost is_read = { λ reader n message.
        IsReadOf reader.store.now.window.places reader.buffer.left n message };

    ghost faults = { λ reader. (D.view reader.disk.now).faults };

    ghost given_upto = { λ reader. reader.given };

    ghost damage = { λ reader. reader.damage };

    ghost later = { λ old new. (new.store.now ≡ old.store.now)
        × (new.disk.ghost_name ≡ old.disk.ghost_name)
        × IsReread D.tells (seen_in old.store.now) (D.view old.disk.now) (D.view new.disk.now) };

    ghost later_here = { λ reader. (
      refl,
      refl,
      reread_here D.tells (seen_in reader.store.now)
          (D.view reader.disk.now),
    ) };

    ghost later_again = { λ one two three first second. (
      second.0 ∙ first.0,
      second.1 ∙ first.1,
      reread_again D.tells (seen_in one.store.now) (seen_in two.store.now) (D.view one.disk.now)
          (D.view two.disk.now) (D.view three.disk.now)
          (D.is_disk one.disk.now) (ap seen_in first.0) first.2 second.2,
    ) };

    fn last_seq(&self) -> u64 {
        self.store.last_seq()
    }

    fn oldest(&self) -> u64 {
        self.store.oldest()
    }

    fn next_after(&mut self, seq: u64, room: &mut Octets) -> Result<Option<u64>, EventsFault> {
        let store = self.store;
        let places = store.window.above(seq, self.left);
        self.left = places.len().saturating_sub(1);
        let found = find_shown(
            &store.log,
            &store.core,
            self.disk,
            places,
            &mut self.buffer,
            &mut self.damage,
            room,
        );
        self.given = given_after(self.given, &found);
        found
    }
}
