//! Comparing numbers with those that were kept.

ghost use Rattle.std.specs.Prelude.{◌≡◌, map};
ghost use Rattle.std.specs.Str.{bytes_eq};
ghost use Rattle.event_window.specs.declared.place.Place.{Place as ThePlace};
ghost use Rattle.store_cut.specs.Cutting.{kept_above};

use event_window::Place;

/// Whether the numbers of places are those of kept ones that are above a number.
pub(crate) fn have_kept(places: &[Place], seq: u64, kept: &[Place]) -> bool
    ensures { result ≡ bytes_eq (map (λ (p : ThePlace). p.seq) places.now)
        (kept_above seq kept.now) }
{
    let mut left = places;
    let mut others = kept;
    'kept: loop {
        let [place, behind @ ..] = others else {
            return left.is_empty();
        };
        if place.seq > seq {
            let [first, rest @ ..] = left else {
                return false;
            };
            if first.seq != place.seq {
                return false;
            }
            left = rest;
        }
        others = behind;
    }
}
