//! The calls of a disk, as a disk in memory records them.
ghost use Rattle.std.specs.Prelude.{◌≡◌, ◌+◌, ◌&&◌, nat_le, nat_lt, false};
ghost use Rattle.relay_disk.specs.Memory.{covered_after};

/// A call that was done.
#[derive(Clone, Copy, Debug, PartialEq, Eq)]
pub enum Call {
    Size,
    /// The place, and the number of bytes.
    Read(u64, usize),
    /// The place, and the number of bytes.
    Write(u64, usize),
    /// The new size.
    Cut(u64),
    Sync,
}

// Whether a place is one of so many from another on.
fn is_within(place: usize, from: usize, len: usize) -> bool
    ensures { result ≡ (nat_le from place && nat_lt place (from + len)) }
{
    from <= place && place - from < len
}

// Whether a write since the last sync covers a place.
pub(crate) fn is_covered(calls: &[Call], place: usize) -> bool
    ensures { result ≡ covered_after false place calls.now }
{
    let mut covered = false;
    'calls: for call in calls {
        covered = match *call {
            Call::Sync => false,
            Call::Write(from, len) => covered || is_within(place, from as usize, len),
            _ => covered,
        };
    }
    covered
}
