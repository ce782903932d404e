//! The paths of records.

ghost use Rattle.std.specs.Prelude.{◌≡◌, ◌<◌, ◌+◌, ◌/◌, ◌%◌, ◌++◌, ◌∷◌, [], OnOk, IfOk};
ghost use Rattle.relay_gen.specs.Names.{generated_path};

use at_cid::{Memory, Words};
use std::alloc::Global;

/// Adds the digit of a number at a unit, a power of ten.
fn push_digit(path: &mut Words, number: u32, unit: u32) -> Result<(), Memory>
    requires { 0 < unit }
    ensures { OnOk result (path.new ≡ path.old ++ (48 + number / unit % 10) ∷ []) }
{
    path.push(char::from(b'0' + (number / unit % 10) as u8))
}

/// The path of the record of a number: its last eight decimal digits.
#[tactic(auto, unfolding(crate::specs::Names::generated_path))]
pub(crate) fn path_of(alloc: Global, number: u32) -> Result<Words, Memory>
    ensures { IfOk result (λ path. path ≡ generated_path number) }
{
    let mut path = Words::from_str(alloc, "app.gen.item/")?;
    push_digit(&mut path, number, 10_000_000)?;
    push_digit(&mut path, number, 1_000_000)?;
    push_digit(&mut path, number, 100_000)?;
    push_digit(&mut path, number, 10_000)?;
    push_digit(&mut path, number, 1_000)?;
    push_digit(&mut path, number, 100)?;
    push_digit(&mut path, number, 10)?;
    push_digit(&mut path, number, 1)?;
    Ok(path)
}
