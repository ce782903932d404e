//! Laws of frames, each the contract of a function that does nothing.

ghost use Rattle.at_event.specs.Laws.{EventsAreFormed, FramesAreEvents, FramesAreRenumbered, PayloadsAreMaps};

/// An outgoing frame is read as its event, under its number, and that event under another number has the frame that
/// the first one has under it.
pub fn frames_are_renumbered()
    ensures { FramesAreRenumbered }
{}

/// The payload of an event is a map, with at most 64 lists and maps in one another.
pub fn payloads_are_maps()
    ensures { PayloadsAreMaps }
{}

/// The fields of an event have their forms: its number is below 2^53, its DID is one and stands in what it says, its
/// time and its status are short texts, its links of trees are of kind Node, its blocks are bytes, and each of its
/// operations has a text as its path and links, where it has any.
pub fn events_are_formed()
    ensures { EventsAreFormed }
{}

/// The event that a message is read as is made of the fields of its payload.
pub fn frames_are_events()
    ensures { FramesAreEvents }
{}
