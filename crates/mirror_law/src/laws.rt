//! The laws of mirrors, each the contract of a function that does nothing.

ghost use Rattle.mirror_law.specs.Laws.{ChainsEndOpen, MirrorsHoldChains, MirrorsHoldHeads};
ghost use Rattle.mirror_law.specs.Laws.{OneIsHeld, StreamsAreSent, WrittenAreSent};

/// A mirror of the stream of a faithful journal holds, after each of its rows, the map to which the
/// open chain replays, at the revision of the chain.
pub fn mirrors_hold_chains()
    ensures { MirrorsHoldChains }
{}

/// Of an account that the journal has as good, it holds the journal's head.
pub fn mirrors_hold_heads()
    ensures { MirrorsHoldHeads }
{}

/// What a mirror reads of what is written of a front of what is served is what was sent.
pub fn written_are_sent()
    ensures { WrittenAreSent }
{}

/// What is served from the start are the events that are shown, in order.
pub fn streams_are_sent()
    ensures { StreamsAreSent }
{}

/// The last chain of rows is the one that is open after them.
pub fn chains_end_open()
    ensures { ChainsEndOpen }
{}

/// At most one thing is held after messages.
pub fn one_is_held()
    ensures { OneIsHeld }
{}
