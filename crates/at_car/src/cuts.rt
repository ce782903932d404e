//! Fronts that are cut: of them nothing is read before more has come.

ghost use Rattle.std.specs.Prelude.{◌≡◌};
ghost use Rattle.at_car.specs.Cuts.{number_open, is_cut};

use crate::varint::{LONGEST_VARINT, read_varint};

/// Whether a number of at most so many groups goes on behind the bytes.
#[tactic(auto, unfolding(crate::specs::Cuts::number_open))]
fn is_open(most: u8, bytes: &[u8]) -> bool
    ensures { result ≡ number_open most bytes.now }
{
    if most == 0 {
        return false;
    }
    let [byte, rest @ ..] = bytes else {
        return true;
    };
    if *byte < 128 {
        return false;
    }
    is_open(most - 1, rest)
}

/// Whether the bytes are a front of a varint, or a varint of more bytes than follow it.
#[tactic(auto, unfolding(crate::specs::Cuts::is_cut))]
pub(crate) fn is_cut(bytes: &[u8]) -> bool
    ensures { result ≡ is_cut bytes.now }
{
    if is_open(LONGEST_VARINT, bytes) {
        return true;
    }
    match read_varint(bytes) {
        Some((len, rest)) => (rest.len() as u64) < len,
        None => false,
    }
}
