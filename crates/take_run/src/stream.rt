//! Messages of one host, one after another.

ghost use Rattle.std.specs.Prelude.{◌≡◌, ◌≤◌, ⊤, List, ℕ, length, Err, IsTrue, IfOk, OnOk, OnErr};
ghost use Rattle.relay_io.specs.Messages.{Gives};
ghost use Rattle.relay_io.specs.declared.feed.FeedFault.{FeedFault as TheFault};
ghost use Rattle.relay_io.specs.declared.feed.TheConstants.{LONGEST_FEED_MESSAGE};
ghost use Rattle.at_cid.specs.Counts.{Counted};

use at_cid::Octets;
use relay_io::{Feed, FeedFault};

/// What a host gives, wherever that comes from.
pub trait Stream {
    /// The next message may be asked for.
    ghost ready: { Self → Type 0 };

    /// These are the messages that are left.
    ghost leaves: { Self → List (List ℕ) → Type 0 };

    /// The faults so far.
    ghost faults: { Self → ℕ };

    /// The second is what calls made of the first.
    ghost later: { Self → Self → Type 0 };

    /// Puts the next message in the room, in place of what was there, and is false where there are no more. After a false or a fault
    /// nothing is said of the room.
    fn next_message(&mut self, room: &mut Octets) -> Result<bool, FeedFault>
        requires ready { ready self.old }
        ensures ready { OnOk result (ready self.new) }
        ensures given { IfOk result (λ more. (given : List (List ℕ)) → leaves self.old given
            → (rest : List (List ℕ)) × leaves self.new rest × Gives more room.new given rest) }
        ensures within { IfOk result
            (λ more. IsTrue more → length room.new ≤ LONGEST_FEED_MESSAGE) }
        ensures kept { OnErr result
            ((given : List (List ℕ)) → leaves self.old given → leaves self.new given) }
        ensures counts { Counted (result ≡ Err TheFault.Failed)
            (faults self.old) (faults self.new) }
        ensures later { later self.old self.new };

    /// No call changes nothing, and calls after others are calls.
    ghost later_here: { (stream : Self) → later stream stream };

    ghost later_again: { (one two three : Self)
        → later one two → later two three → later one three };
}

/// The stream of a feed that is open.
#[derive(Drop)]
pub struct OpenFeed<'feed, F> {
    /// The feed.
    pub feed: &'feed mut F,
}

impl<F: Feed> Stream for OpenFeed<'_, F> {
    ghost use Rattle.std.proofs.Common.{refl, ◌∙◌};

    ghost ready = { λ s. ⊤ };

    ghost leaves = { λ s given. IsTrue F.tells × (given ≡ F.left s.feed.now) };

    ghost faults = { λ s. F.faults s.feed.now };

    ghost later = { λ old new. new.feed.ghost_name ≡ old.feed.ghost_name };

    ghost later_here = { λ s. refl };

    ghost later_again = { λ one two three first second. second ∙ first };

    fn next_message(&mut self, room: &mut Octets) -> Result<bool, FeedFault> {
        self.feed.next(room)
    }
}
