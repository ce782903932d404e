//! The disk model in its own words.
ghost use Rattle.std.specs.Prelude.{List, ℕ, length};
ghost use Rattle.relay_disk.specs.Works.{Work, after, opened};
ghost use Rattle.relay_disk.specs.Ranges.{IsUnsynced, AreInside, IsWithin};

/// What the calls since a sync leave, each of them done in any part, has any bytes in the ranges that were
/// written and past the size at the sync, the synced bytes elsewhere, and a size between the least and the
/// greatest since.
pub fn parts_are_within_ranges()
    ensures { (content : List ℕ) (works : List Work) → IsUnsynced works
        → AreInside (length content) works → (image : List ℕ)
        → (after (opened content) works).may_leave image → IsWithin content works image }
{}

/// The other way: whatever has such bytes and such a size is what these calls may leave.
pub fn ranges_are_left_by_parts()
    ensures { (content : List ℕ) (works : List Work) → IsUnsynced works
        → AreInside (length content) works → (image : List ℕ)
        → IsWithin content works image → (after (opened content) works).may_leave image }
{}
