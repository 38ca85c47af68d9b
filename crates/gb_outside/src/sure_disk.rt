//! A disk that never fails.
ghost use Rattle.std.specs.Prelude.{◌≡◌, false};
ghost use Rattle.gb_outside.specs.declared.sure_disk.SureDisk.{SureDisk};

use crate::{Disk, DiskFailed};

/// A disk with no fault that keeps nothing: its length is 0, and it reads zeros.
#[derive(Clone, Copy, Debug, Default)]
pub struct SureDisk;

impl SureDisk {
    /// A disk that keeps nothing.
    pub fn new() -> SureDisk
        ensures untold { ⟦<SureDisk as Disk>⟧.tells ≡ false }
        ensures sure { (disk : SureDisk) → ⟦<SureDisk as Disk>⟧.faults disk ≡ 0 }
    {
        SureDisk
    }
}

impl Disk for SureDisk {
    ghost use Rattle.std.specs.Prelude.{◌≡◌, false, [], Ok, length, replicate};

    ghost tells = { false };

    ghost reads = { λ _. [] };

    ghost images = { λ _ _. ⊥ };

    ghost moment = { λ _. 0 };

    ghost since = { λ _ _ _. ⊥ };

    ghost faults = { λ _. 0 };

    fn len(&mut self) -> Result<u64, DiskFailed>
        ensures { result ≡ Ok 0 }
    {
        Ok(0)
    }

    fn read_at(&mut self, _at: u64, into: &mut [u8]) -> Result<(), DiskFailed>
        ensures done { result ≡ Ok tt }
        ensures zeros { into.new ≡ replicate (length into.old) 0 }
    {
        into.fill(0);
        Ok(())
    }

    fn write_at(&mut self, _at: u64, _bytes: &[u8]) -> Result<(), DiskFailed>
        ensures { result ≡ Ok tt }
    {
        Ok(())
    }

    fn sync(&mut self) -> Result<(), DiskFailed>
        ensures { result ≡ Ok tt }
    {
        Ok(())
    }

    ghost reads_is_image = { λ disk no. Prim.cc };

    ghost no_longer = { λ disk c no image. absurd image };

    ghost counts_now = { λ disk t c no later now. now };

    ghost only_now = { λ disk c no left. left };
}
