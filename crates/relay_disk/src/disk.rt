//! The disk, as the log sees it.
ghost use Rattle.std.specs.Prelude.{◌≡◌, ◌≤◌, ◌<◌, ◌+◌, List, ℕ, Bool, length, take, drop, IsTrue, IfOk, OnOk, OnErr};
ghost use Rattle.at_cid.specs.Counts.{Rose};
ghost use Rattle.relay_disk.specs.Disk.{View, Goes, Same, Torn, Cut, IsDisk, IsSynced, written};

/// Sizes are below this, in bytes, and so is the end of each written range (own limit: a file's sizes are of type `i64`).
pub const SIZES: u64 = 1 << 63;

/// A call of the disk failed, as its count of faults shows.
#[derive(Clone, Copy, Debug, PartialEq, Eq, thiserror::Error)]
#[error("the disk failed")]
pub struct Failed;

/// A list of bytes that outlasts the program.
///
/// Between two syncs a crash may leave any bytes in each range written since the last sync and in the part
/// past the size at that sync, and any size between the least and the greatest since. All other bytes stay.
/// After a sync that answers `Ok`, a crash leaves the content. A call that fails may have done any part of its
/// work. Places and sizes are in bytes; sizes are below `SIZES`, and so is the end of each written range.
///
/// A disk that doesn't tell its content answers `Failed` where a condition on the content isn't met.
pub trait Disk {
    /// Whether the content is told.
    ghost tells: { Bool };

    /// The disk at this moment.
    ghost view: { Self → View };

    /// The number of bytes.
    fn size(&mut self) -> Result<u64, Failed>
        ensures size { IfOk result (λ size. IsTrue tells → size ≡ length (view self.old).content) }
        ensures below { IfOk result (λ size. size < SIZES) }
        ensures goes { Goes Same (view self.old) (view self.new) }
        ensures steady { OnOk result ((view self.new).faults ≡ (view self.old).faults) }
        ensures failed { OnErr result (Rose (view self.old).faults (view self.new).faults) };

    /// Fills the room with the bytes from a place on.
    fn read(&mut self, place: u64, room: &mut [u8]) -> Result<(), Failed>
        requires { IsTrue tells → place + length room.old ≤ length (view self.old).content }
        ensures bytes { OnOk result (IsTrue tells →
            room.new ≡ take (length room.old) (drop place (view self.old).content)) }
        ensures goes { Goes Same (view self.old) (view self.new) }
        ensures steady { OnOk result ((view self.new).faults ≡ (view self.old).faults) }
        ensures failed { OnErr result (Rose (view self.old).faults (view self.new).faults) };

    /// Writes over what is there, and past the end.
    fn write_at(&mut self, place: u64, piece: &[u8]) -> Result<(), Failed>
        requires inside { IsTrue tells → place ≤ length (view self.old).content }
        requires below { place + length piece.now < SIZES }
        ensures ok { OnOk result (IsTrue tells →
            (view self.new).content ≡ written place piece.now (view self.old).content) }
        ensures goes { Goes (Torn place (length piece.now)) (view self.old) (view self.new) }
        ensures steady { OnOk result ((view self.new).faults ≡ (view self.old).faults) }
        ensures failed { OnErr result (Rose (view self.old).faults (view self.new).faults) };

    /// Takes off what is behind a size.
    fn cut(&mut self, size: u64) -> Result<(), Failed>
        requires { IsTrue tells → size ≤ length (view self.old).content }
        ensures ok { OnOk result
            (IsTrue tells → (view self.new).content ≡ take size (view self.old).content) }
        ensures goes { Goes (Cut size) (view self.old) (view self.new) }
        ensures steady { OnOk result ((view self.new).faults ≡ (view self.old).faults) }
        ensures failed { OnErr result (Rose (view self.old).faults (view self.new).faults) };

    /// After it, a crash leaves the content.
    fn sync(&mut self) -> Result<(), Failed>
        ensures ok { OnOk result (IsTrue tells → IsSynced (view self.new)) }
        ensures goes { Goes Same (view self.old) (view self.new) }
        ensures steady { OnOk result ((view self.new).faults ≡ (view self.old).faults) }
        ensures failed { OnErr result (Rose (view self.old).faults (view self.new).faults) };

    /// What holds at each moment.
    ghost is_disk: { (disk : Self) → IsDisk (view disk) };
}
