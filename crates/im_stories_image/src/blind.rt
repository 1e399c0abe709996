//! A disk whose contents no proof knows, so that a story may put any bytes on it.
ghost use Rattle.std.specs.Prelude.{◌≡◌, ◌+◌, ◌-◌, ◌^◌, ◌≤◌, true, [], length};

use im_disk::{DeviceFault, Disk, FuseDisk, MemDisk, Mode};
use im_types::LAST;

/// A disk over another one. A range past the end that this had at first is a fault, and makes no call of it.
#[derive(Drop)]
pub struct Blind<D: Disk> {
    disk: D,
    size: usize,
    ghost inside: { D.honest disk → size ≤ length (D.now disk).bytes },
}

impl<D: Disk> Blind<D> {
    /// Takes a disk. One whose length can't be read counts as empty.
    pub fn over(mut disk: D) -> Blind<D> {
        match disk.len() {
            Ok(size) => Blind { disk, size },
            Err(_) => Blind { disk, size: 0 },
        }
    }

    /// Returns the disk beneath.
    pub fn inner(&self) -> &D {
        &self.disk
    }

    /// Gives the disk beneath back.
    pub fn into_inner(self) -> D {
        self.disk
    }

    // Returns whether a range lies inside.
    fn has(&self, at: usize, count: usize) -> bool
        ensures { result ≡ true → at + count ≤ self.now.size }
    {
        at <= self.size && count <= self.size - at
    }
}

/// A disk in memory, whose calls fail as its fuse says.
pub type StoryDisk = Blind<FuseDisk>;

impl StoryDisk {
    /// Takes a disk in memory. All calls pass.
    pub fn steady(disk: MemDisk) -> StoryDisk {
        Blind::over(FuseDisk::new(disk, LAST, Mode::Stop))
    }
}

impl<D: Disk> Disk for Blind<D> {
    ghost now = { λ _. record { bytes = []; ranges = [] } };

    ghost past = { λ _. [] };

    // A count at its top stays there, whatever fails.
    ghost failures = { λ _. 2 ^ 64 - 1 };

    ghost honest = { λ _. ⊥ };

    fn len(&mut self) -> Result<usize, DeviceFault> {
        self.disk.len()
    }

    fn read(&mut self, at: usize, buf: &mut [u8]) -> Result<(), DeviceFault> {
        if self.has(at, buf.len()) {
            self.disk.read(at, buf)
        } else {
            Err(DeviceFault)
        }
    }

    fn write_at(&mut self, at: usize, bytes: &[u8]) -> Result<(), DeviceFault> {
        if self.has(at, bytes.len()) {
            self.disk.write_at(at, bytes)
        } else {
            Err(DeviceFault)
        }
    }

    fn sync(&mut self) -> Result<(), DeviceFault> {
        self.disk.sync()
    }
}
