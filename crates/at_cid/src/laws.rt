//! Laws of links.

ghost use Rattle.at_cid.specs.Laws.{TextTellsLink};

/// No two links have one text.
pub fn text_tells_link()
    ensures { TextTellsLink }
{}
