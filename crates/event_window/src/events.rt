//! Who gives out events.

ghost use Rattle.std.specs.Prelude.{◌≡◌, ◌≤◌, ◌<◌, ◌^◌, ℕ, List, Bool, Option, IsTrue, IfOk, IfSome, OnOk, OnErr, length};
ghost use Rattle.at_cid.specs.Counts.{Rose};
ghost use Rattle.event_window.specs.Held.{Held, IsNext, damage_after, given_after, oldest_of};
ghost use Rattle.event_window.specs.declared.fault.EventsFault.{EventsFault};

use crate::fault::EventsFault;
use at_cid::Octets;

/// Events that are held under their numbers, of which those that are shown are given out.
pub trait Events {
    /// Whether it is told which events are held.
    ghost tells: { Bool };

    /// These are the events that it holds.
    ghost holds: { Self → Held → Type 0 };

    /// The faults so far.
    ghost faults: { Self → ℕ };

    /// The number of the event that was given last, or 0.
    ghost given_upto: { Self → ℕ };

    /// The place where damage was found last: where no event stands, and one did.
    ghost damage: { Self → Option ℕ };

    /// What was read last is the event of this number and message, and it stands where that number is kept.
    ghost is_read: { Self → ℕ → List ℕ → Type 0 };

    /// The second is what calls made of the first.
    ghost later: { Self → Self → Type 0 };

    /// The last number that was given, or 0.
    fn last_seq(&self) -> u64
        ensures { IsTrue tells → (held : Held) → holds self.now held → result ≡ held.last };

    /// The least number that is held, and where none is, the one behind the last.
    fn oldest(&self) -> u64
        ensures { IsTrue tells → (held : Held) → holds self.now held → result ≡ oldest_of held };

    /// The next event above a number that is shown: its number, and its message, which is put into the room in place of what was
    /// there. What is read has to have the number that was kept, and fewer than 2^32 bytes, whether or not it is told what is held.
    /// Where there is none, and after a fault, nothing is said of the room.
    fn next_after(&mut self, seq: u64, room: &mut Octets) -> Result<Option<u64>, EventsFault>
        requires known { IsTrue tells → (held : Held) × holds self.old held }
        ensures next { IfOk result (λ found. IsTrue tells → (held : Held)
            → holds self.old held → IsNext seq held.shown found room.new) }
        ensures read { IfOk result (λ found. IfSome found (λ n. is_read self.new n room.new)) }
        ensures short { IfOk result (λ found. IfSome found (λ n. length room.new < 2 ^ 32)) }
        ensures same { IsTrue tells → (held : Held) → holds self.old held → holds self.new held }
        ensures later { later self.old self.new }
        ensures steady { OnOk result (faults self.new ≡ faults self.old) }
        ensures no_fault { OnErr result
            ((result ≡ Err EventsFault.Disk → ⊥) → faults self.new ≡ faults self.old) }
        ensures disk { result ≡ Err EventsFault.Disk → Rose (faults self.old) (faults self.new) }
        ensures counts { faults self.old ≤ faults self.new }
        ensures given { given_upto self.new ≡ given_after (given_upto self.old) result }
        ensures damaged { damage self.new ≡ damage_after (damage self.old) result }
        ensures no_bad_log { (place : ℕ) → result ≡ Err (EventsFault.BadLog place)
            → IsTrue tells → (held : Held) → holds self.old held → ⊥ };

    /// No call changes nothing, and calls behind others are calls.
    ghost later_here: { (events : Self) → later events events };

    ghost later_again: { (one two three : Self) → later one two → later two three → later one three };
}
