//! Laws of CARs.

ghost use Rattle.at_car.specs.Laws.{OneBlockIsShort};

/// The CAR of one block has at most 128 bytes more than the block.
pub fn one_block_is_short()
    ensures { OneBlockIsShort }
{}
