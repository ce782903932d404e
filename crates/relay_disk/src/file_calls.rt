//! The calls of a file that a disk makes.
ghost use Rattle.std.specs.Prelude.{◌≡◌, ℕ, List, Bool, IsTrue, IfOk, ◌++◌, ◌∷◌, [], length};
ghost use Rattle.relay_disk.specs.declared.call.Call.{Call};

use crate::Call;
use std::io;

/// A file, by the calls that a disk makes of it. Places and sizes are in bytes.
pub trait FileCalls {
    /// Whether the calls are told.
    ghost tells: { Bool };

    /// The calls that were made, in their order, whatever they answered.
    ghost made: { Self → List Call };

    /// The size that the file gave last.
    ghost size_told: { Self → ℕ };

    /// The number of bytes.
    fn size(&mut self) -> io::Result<u64>
        ensures made { IsTrue tells → made self.new ≡ made self.old ++ Call.Size ∷ [] }
        ensures told { IfOk result (λ size. IsTrue tells → size_told self.new ≡ size) };

    /// Fills the room with the bytes from a place on, or fails.
    fn read(&mut self, place: u64, room: &mut [u8]) -> io::Result<()>
        ensures { IsTrue tells
            → made self.new ≡ made self.old ++ Call.Read place (length room.old) ∷ [] };

    /// Writes the whole piece at a place, over what is there and past the end.
    fn write_at(&mut self, place: u64, piece: &[u8]) -> io::Result<()>
        ensures made { IsTrue tells
            → made self.new ≡ made self.old ++ Call.Write place (length piece.now) ∷ [] }
        ensures told { IsTrue tells → size_told self.new ≡ size_told self.old };

    /// Gives the file this size.
    fn cut(&mut self, size: u64) -> io::Result<()>
        ensures made { IsTrue tells → made self.new ≡ made self.old ++ Call.Cut size ∷ [] }
        ensures told { IsTrue tells → size_told self.new ≡ size_told self.old };

    /// Makes what was written durable.
    fn sync(&mut self) -> io::Result<()>
        ensures { IsTrue tells → made self.new ≡ made self.old ++ Call.Sync ∷ [] };
}
