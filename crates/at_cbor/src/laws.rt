//! Laws of the encoding.

ghost use Rattle.at_cbor.specs.Laws.{OneEncoding, ReadsFronts, EqualIsSame};
ghost use Rattle.at_cbor.specs.TakingLaws.{TakesFronts, TakesNumbers, TakesStrings, TakesTexts, TakesLinks, TakesChildren, TakesItems, TakesWholes};

/// Each item has one encoding, no two items have the same, and no item's encoding begins another's.
pub fn encoding_tells_item()
    ensures { OneEncoding }
{}

/// An item is read exactly where its encoding stands in front.
pub fn reads_what_is_encoded()
    ensures { ReadsFronts }
{}

/// Values are equal exactly where they say the same.
pub fn equal_is_same()
    ensures { EqualIsSame }
{}

/// What is taken from the front of bytes is what is encoded there, and what is encoded there is taken.
pub fn takes_what_is_encoded()
    ensures fronts { TakesFronts }
    ensures numbers { TakesNumbers }
    ensures strings { TakesStrings }
    ensures texts { TakesTexts }
    ensures links { TakesLinks }
    ensures children { TakesChildren }
    ensures items { TakesItems }
    ensures wholes { TakesWholes }
{}
