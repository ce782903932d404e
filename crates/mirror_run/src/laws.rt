//! The laws of streams that were mirrored, each the contract of a function that does nothing. They hold
//! of each run of `mirror`, by what its contract says of it.

ghost use Rattle.mirror_run.specs.Laws.{JournalsAreMirrored, JournalsHeadsArePrinted, ShortStreamsAreTaken};

/// A stream that isn't too long is taken whole where each of its messages can be taken, unless a call
/// fails or memory runs out; and of another the place is reported from which on it can't be.
pub fn short_streams_are_taken()
    ensures { ShortStreamsAreTaken }
{}

/// Of the stream of a faithful journal, up to any of its rows, a mirror holds the map to which the open
/// chain of each account replays of which nothing is withheld.
pub fn journals_are_mirrored()
    ensures { JournalsAreMirrored }
{}

/// Of the whole stream of one it prints the journal's own head of each such account that is good.
pub fn journals_heads_are_printed()
    ensures { JournalsHeadsArePrinted }
{}
