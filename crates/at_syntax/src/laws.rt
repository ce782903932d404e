//! Laws of TIDs, each the contract of a function that does nothing.

ghost use Rattle.at_syntax.specs.Laws.{WrittenTidsAreRead, TextsAreTids, TidsOrderAsTexts};

/// What [`Tid::write`](crate::Tid) writes, `Tid::parse` reads as the same value.
pub fn written_tids_are_read()
    ensures { WrittenTidsAreRead }
{}

/// A text is a TID exactly where it is the 13 digits of a value.
pub fn texts_are_tids()
    ensures { TextsAreTids }
{}

/// Two TIDs compare as their texts do.
pub fn tids_order_as_texts()
    ensures { TidsOrderAsTexts }
{}
