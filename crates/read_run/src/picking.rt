//! The disk that is read, of two.

ghost use Rattle.std.specs.Prelude.{◌≡◌};
ghost use Rattle.std.specs.Borrow.{sem};
ghost use Rattle.run_base.specs.Place.{disk_of};
ghost use Rattle.read_run.specs.Picking.{LendsDisk};

use gate_log::Side;
use run_base::Pair;

/// The disk of this side.
pub(crate) fn picked<'a, D>(pair: &'a mut Pair<'_, '_, D>, side: Side) -> &'a mut D
    ensures* lends { sem 𝓛 (LendsDisk D.row pair.entry side result) }
    ensures value { result.now ≡ disk_of side pair.old }
{
    match side {
        Side::One => &mut *pair.one,
        Side::Two => &mut *pair.two,
    }
}
