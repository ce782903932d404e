//! A disk that passes so many calls on and then fails.
ghost use Rattle.std.specs.Prelude.{◌≡◌, ◌<◌, ◌≤◌, ◌+◌, length, take, drop, IsTrue, IfOk, OnOk, OnErr};
ghost use Rattle.at_cid.specs.Counts.{Rose};
ghost use Rattle.relay_disk.specs.Disk.{written};
ghost use Rattle.relay_disk.specs.Fuse.{recounted, recounted_disk};
ghost use Rattle.relay_disk.specs.declared.disk.TheConstants.{SIZES};

use crate::counts::counted;
use crate::passes::Passes;
use crate::{Disk, Failed};

/// A disk that passes so many calls on to another and then fails each without touching it.
#[derive(Drop)]
pub struct FuseDisk<D: Disk> {
    disk: D,
    passes: Passes,
}

impl<D: Disk> FuseDisk<D> {
    ghost use Rattle.relay_disk.specs.FuseView.{inner, passes_left, faults_so_far};

    /// Passes so many calls on to the disk. The faults are counted anew.
    pub fn new(disk: D, passes: u64) -> Self
        ensures inner { inner result ≡ disk }
        ensures passes { passes_left result ≡ passes }
        ensures faults { faults_so_far result ≡ 0 }
    {
        let passes = Passes {
            left: passes,
            faults: 0,
        };
        FuseDisk { disk, passes }
    }

    /// The disk, with all that was done on it.
    pub fn into_inner(self) -> D
        ensures { result ≡ inner self }
    {
        let FuseDisk { disk, .. } = self;
        disk
    }
}

impl<D: Disk> Disk for FuseDisk<D> {
    ghost use Rattle.relay_disk.specs.Disk.{Goes, Same, Torn, Cut, IsSynced};
    ghost use Rattle.relay_disk.specs.FuseView.{Burns};

    ghost tells = { D.tells };

    ghost view = { λ f. recounted (D.view f.disk) f.passes.faults };

    ghost is_disk = { λ f. recounted_disk (D.view f.disk) f.passes.faults (D.is_disk f.disk) };

    fn size(&mut self) -> Result<u64, Failed>
        ensures size { IfOk result
            (λ size. IsTrue D.tells → size ≡ length (D.view self.old.disk).content) }
        ensures below { IfOk result (λ size. size < SIZES) }
        ensures goes { Goes Same (recounted (D.view self.old.disk) self.old.passes.faults)
            (recounted (D.view self.new.disk) self.new.passes.faults) }
        ensures steady { OnOk result (self.new.passes.faults ≡ self.old.passes.faults) }
        ensures failed { OnErr result (Rose self.old.passes.faults self.new.passes.faults) }
        ensures burns { Burns (λ d. (D.view d).faults) result self.old self.new }
    {
        self.passes.take()?;
        let answer = self.disk.size();
        counted(&mut self.passes.faults, answer)
    }

    fn read(&mut self, place: u64, room: &mut [u8]) -> Result<(), Failed>
        requires { IsTrue D.tells
            → place + length room.old ≤ length (D.view self.old.disk).content }
        ensures bytes { OnOk result (IsTrue D.tells
            → room.new ≡ take (length room.old) (drop place (D.view self.old.disk).content)) }
        ensures goes { Goes Same (recounted (D.view self.old.disk) self.old.passes.faults)
            (recounted (D.view self.new.disk) self.new.passes.faults) }
        ensures steady { OnOk result (self.new.passes.faults ≡ self.old.passes.faults) }
        ensures failed { OnErr result (Rose self.old.passes.faults self.new.passes.faults) }
        ensures burns { Burns (λ d. (D.view d).faults) result self.old self.new }
    {
        self.passes.take()?;
        let answer = self.disk.read(place, room);
        counted(&mut self.passes.faults, answer)
    }

    fn write_at(&mut self, place: u64, piece: &[u8]) -> Result<(), Failed>
        requires inside { IsTrue D.tells → place ≤ length (D.view self.old.disk).content }
        requires below { place + length piece.now < SIZES }
        ensures ok { OnOk result (IsTrue D.tells → (D.view self.new.disk).content
            ≡ written place piece.now (D.view self.old.disk).content) }
        ensures goes { Goes (Torn place (length piece.now))
            (recounted (D.view self.old.disk) self.old.passes.faults)
            (recounted (D.view self.new.disk) self.new.passes.faults) }
        ensures steady { OnOk result (self.new.passes.faults ≡ self.old.passes.faults) }
        ensures failed { OnErr result (Rose self.old.passes.faults self.new.passes.faults) }
        ensures burns { Burns (λ d. (D.view d).faults) result self.old self.new }
    {
        self.passes.take()?;
        let answer = self.disk.write_at(place, piece);
        counted(&mut self.passes.faults, answer)
    }

    fn cut(&mut self, size: u64) -> Result<(), Failed>
        requires { IsTrue D.tells → size ≤ length (D.view self.old.disk).content }
        ensures ok { OnOk result (IsTrue D.tells
            → (D.view self.new.disk).content ≡ take size (D.view self.old.disk).content) }
        ensures goes { Goes (Cut size) (recounted (D.view self.old.disk) self.old.passes.faults)
            (recounted (D.view self.new.disk) self.new.passes.faults) }
        ensures steady { OnOk result (self.new.passes.faults ≡ self.old.passes.faults) }
        ensures failed { OnErr result (Rose self.old.passes.faults self.new.passes.faults) }
        ensures burns { Burns (λ d. (D.view d).faults) result self.old self.new }
    {
        self.passes.take()?;
        let answer = self.disk.cut(size);
        counted(&mut self.passes.faults, answer)
    }

    fn sync(&mut self) -> Result<(), Failed>
        ensures ok { OnOk result (IsTrue D.tells → IsSynced (D.view self.new.disk)) }
        ensures goes { Goes Same (recounted (D.view self.old.disk) self.old.passes.faults)
            (recounted (D.view self.new.disk) self.new.passes.faults) }
        ensures steady { OnOk result (self.new.passes.faults ≡ self.old.passes.faults) }
        ensures failed { OnErr result (Rose self.old.passes.faults self.new.passes.faults) }
        ensures burns { Burns (λ d. (D.view d).faults) result self.old self.new }
    {
        self.passes.take()?;
        let answer = self.disk.sync();
        counted(&mut self.passes.faults, answer)
    }
}
