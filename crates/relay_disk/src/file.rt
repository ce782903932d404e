//! A disk on one file, which tells nothing of its content.
ghost use Rattle.std.specs.Prelude.{◌≡◌, ◌≤◌, ◌<◌, ◌+◌, ◌++◌, ◌∷◌, [], false, length, take, drop, IsTrue, IfOk, OnOk, OnErr};
ghost use Rattle.at_cid.specs.Counts.{Rose};
ghost use Rattle.relay_disk.specs.Disk.{Goes, Same, Torn, Cut, IsSynced, written};
ghost use Rattle.relay_disk.specs.Untold.{untold, untold_disk};

use crate::counts::{counted, fail};
use crate::disk::SIZES;
use crate::{Call, Disk, Failed, FileCalls};
use std::io;

/// A disk on one file. A call answers `Failed` where the file does. A write at a place past the end, and a cut to a size past it,
/// answer `Failed`, too: the place and the size are compared with the size that the file gives.
#[derive(Drop)]
pub struct FileDisk<F: FileCalls> {
    file: F,
    faults: u64,
}

impl<F: FileCalls> FileDisk<F> {
    /// The disk on a file, without faults so far.
    pub fn on(file: F) -> Self
        ensures file { result.file ≡ file }
        ensures faults { result.faults ≡ 0 }
    {
        FileDisk { file, faults: 0 }
    }
}

// The answer without its cause.
fn answered<T>(answer: io::Result<T>) -> Result<T, Failed> {
    answer.map_err(|_| Failed)
}

// Fails where a place is past the end.
fn check_inside<F: FileCalls>(file: &mut F, place: u64) -> Result<(), Failed>
    ensures made { IsTrue F.tells → F.made file.new ≡ F.made file.old ++ Call.Size ∷ [] }
    ensures inside { OnOk result (IsTrue F.tells → place ≤ F.size_told file.new) }
{
    match file.size() {
        Ok(size) if place <= size => Ok(()),
        _ => Err(Failed),
    }
}

fn write_inside<F: FileCalls>(file: &mut F, place: u64, piece: &[u8]) -> Result<(), Failed>
    ensures made { OnOk result (IsTrue F.tells → F.made file.new ≡ F.made file.old
        ++ Call.Size ∷ (Call.Write place (length piece.now) ∷ [])) }
    ensures inside { OnOk result (IsTrue F.tells → place ≤ F.size_told file.new) }
{
    check_inside(file, place)?;
    answered(file.write_at(place, piece))
}

fn cut_inside<F: FileCalls>(file: &mut F, size: u64) -> Result<(), Failed>
    ensures made { OnOk result
        (IsTrue F.tells → F.made file.new ≡ F.made file.old ++ Call.Size ∷ (Call.Cut size ∷ [])) }
    ensures inside { OnOk result (IsTrue F.tells → size ≤ F.size_told file.new) }
{
    check_inside(file, size)?;
    answered(file.cut(size))
}

impl<F: FileCalls> Disk for FileDisk<F> {
    ghost tells = { false };

    ghost view = { λ d. untold d.faults };

    ghost is_disk = { λ d. untold_disk d.faults };

    fn size(&mut self) -> Result<u64, Failed>
        ensures size { IfOk result
            (λ size. IsTrue false → size ≡ length (untold self.old.faults).content) }
        ensures below { IfOk result (λ size. size < SIZES) }
        ensures goes { Goes Same (untold self.old.faults) (untold self.new.faults) }
        ensures steady { OnOk result (self.new.faults ≡ self.old.faults) }
        ensures failed { OnErr result (Rose self.old.faults self.new.faults) }
        ensures calls { IsTrue F.tells
            → F.made self.new.file ≡ F.made self.old.file ++ Call.Size ∷ [] }
    {
        match self.file.size() {
            Ok(size) if size < SIZES => Ok(size),
            _ => fail(&mut self.faults),
        }
    }

    fn read(&mut self, place: u64, room: &mut [u8]) -> Result<(), Failed>
        ensures bytes { OnOk result (IsTrue false
            → room.new ≡ take (length room.old) (drop place (untold self.old.faults).content)) }
        ensures goes { Goes Same (untold self.old.faults) (untold self.new.faults) }
        ensures steady { OnOk result (self.new.faults ≡ self.old.faults) }
        ensures failed { OnErr result (Rose self.old.faults self.new.faults) }
        ensures calls { IsTrue F.tells → F.made self.new.file ≡ F.made self.old.file
            ++ Call.Read place (length room.old) ∷ [] }
    {
        let answer = answered(self.file.read(place, room));
        counted(&mut self.faults, answer)
    }

    fn write_at(&mut self, place: u64, piece: &[u8]) -> Result<(), Failed>
        requires { place + length piece.now < SIZES }
        ensures ok { OnOk result (IsTrue false → (untold self.new.faults).content
            ≡ written place piece.now (untold self.old.faults).content) }
        ensures goes { Goes (Torn place (length piece.now))
            (untold self.old.faults) (untold self.new.faults) }
        ensures steady { OnOk result (self.new.faults ≡ self.old.faults) }
        ensures failed { OnErr result (Rose self.old.faults self.new.faults) }
        ensures calls { OnOk result (IsTrue F.tells → F.made self.new.file ≡ F.made self.old.file
            ++ Call.Size ∷ (Call.Write place (length piece.now) ∷ [])) }
        ensures inside { OnOk result (IsTrue F.tells → place ≤ F.size_told self.new.file) }
    {
        let answer = write_inside(&mut self.file, place, piece);
        counted(&mut self.faults, answer)
    }

    fn cut(&mut self, size: u64) -> Result<(), Failed>
        ensures ok { OnOk result (IsTrue false
            → (untold self.new.faults).content ≡ take size (untold self.old.faults).content) }
        ensures goes { Goes (Cut size) (untold self.old.faults) (untold self.new.faults) }
        ensures steady { OnOk result (self.new.faults ≡ self.old.faults) }
        ensures failed { OnErr result (Rose self.old.faults self.new.faults) }
        ensures calls { OnOk result (IsTrue F.tells
            → F.made self.new.file ≡ F.made self.old.file ++ Call.Size ∷ (Call.Cut size ∷ [])) }
        ensures inside { OnOk result (IsTrue F.tells → size ≤ F.size_told self.new.file) }
    {
        let answer = cut_inside(&mut self.file, size);
        counted(&mut self.faults, answer)
    }

    fn sync(&mut self) -> Result<(), Failed>
        ensures ok { OnOk result (IsTrue false → IsSynced (untold self.new.faults)) }
        ensures goes { Goes Same (untold self.old.faults) (untold self.new.faults) }
        ensures steady { OnOk result (self.new.faults ≡ self.old.faults) }
        ensures failed { OnErr result (Rose self.old.faults self.new.faults) }
        ensures calls { IsTrue F.tells
            → F.made self.new.file ≡ F.made self.old.file ++ Call.Sync ∷ [] }
    {
        let answer = answered(self.file.sync());
        counted(&mut self.faults, answer)
    }
}
