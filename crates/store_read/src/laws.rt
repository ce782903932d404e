//! Laws of events, each the contract of a function that does nothing.

ghost use Rattle.store_read.specs.ShownMessages.{ShownAsRead};

/// What is shown of a faithful journal's events follows from their messages alone.
pub fn events_are_shown_as_read()
    ensures { ShownAsRead }
{}
