//! A disk in memory that passes a given number of calls and then fails.
ghost use Rattle.std.specs.Prelude.{◌≡◌, ◌+◌, ◌≤◌, min, true, false, length, take, drop, OnOk, IsErr, Ok};
ghost use Rattle.im_types.specs.Types.{LAST};

use crate::{DeviceFault, Disk, MemDisk};
use im_types::LAST;
use std::marker::Model;

/// What a fuse does after it has passed its calls.
#[derive(Clone, Copy, Debug, PartialEq, Eq)]
pub enum Mode {
    /// Each later call fails. A failed write leaves its range's bytes.
    Stop,
    /// The next call fails, and all later ones pass. A failed write leaves its range's bytes.
    Once,
    /// The next call fails, and all later ones pass. A failed write fills its range with this byte.
    Scar(u8),
}

/// A disk in memory whose calls of `read`, `write_at` and `sync` fail as its fuse says. It is always honest. `len`
/// always passes.
#[derive(Drop)]
pub struct FuseDisk {
    disk: MemDisk,
    passes: u64,
    mode: Mode,
    calls: u64,
}

impl Model for FuseDisk {
    ghost use Rattle.im_disk.specs.Fuse.{Fused};

    ghost Value = { Fused };

    ghost use Rattle.std.specs.Prelude.{◌≤◌};
    ghost use Rattle.im_types.specs.Types.{LAST};

    ghost view = { λ f. record { disk = f.disk; passes = f.passes; mode = f.mode; calls = f.calls } };

    ghost invariant = { λ f. f.calls ≤ LAST };
}

impl Mode {
    ghost use Rattle.im_disk.specs.Fuse.{fails_in, scar_of};

    // Returns whether the call after `calls` others fails.
    fn fails(self, passes: u64, calls: u64) -> bool
        ensures { result ≡ fails_in self passes calls }
    {
        match self {
            Mode::Stop => passes <= calls,
            Mode::Once | Mode::Scar(_) => calls == passes,
        }
    }

    // The byte that a failed write puts over its range, if it puts one.
    fn scar(self) -> Option<u8>
        ensures { result ≡ scar_of self }
    {
        match self {
            Mode::Stop | Mode::Once => None,
            Mode::Scar(byte) => Some(byte),
        }
    }
}

fn one_more(calls: u64) -> u64
    requires { calls ≤ LAST }
    ensures { result ≡ min (calls + 1) LAST }
{
    (calls + 1).min(LAST)
}

impl FuseDisk {
    ghost use Rattle.im_disk.specs.Fuse.{fresh};

    /// Makes a disk that passes `passes` calls and then fails as the mode says.
    pub fn new(disk: MemDisk, passes: u64, mode: Mode) -> FuseDisk
        ensures fresh { result ≡ fresh disk passes mode }
        ensures honest { ⟦<FuseDisk as Disk>⟧.honest result }
    {
        FuseDisk {
            disk,
            passes,
            mode,
            calls: 0,
        }
    }

    /// Returns the number of calls of `read`, `write_at` and `sync` so far, including failed ones. It stops at
    /// [`LAST`].
    pub fn calls(&self) -> u64
        ensures calls { result ≡ self.now.calls }
        ensures last { result ≤ LAST }
    {
        self.calls
    }

    /// Returns the disk without the fuse.
    pub fn into_inner(self) -> MemDisk
        ensures { result ≡ self.disk }
    {
        self.disk
    }
}

impl Disk for FuseDisk {
    ghost use Rattle.im_disk.specs.Fuse.{counted, fails, scar_of};
    ghost use Rattle.im_disk.specs.Moment.{Counts, MayTick, Moment, Shaken, synced, Ticks, Torn, written};
    ghost use Rattle.im_disk.specs.Recording.{Answers, Fails, scarred, settled_by_sync, ticked};

    ghost now = { λ f. f.disk.moment };

    ghost past = { λ f. f.disk.past };

    ghost failures = { λ f. f.disk.failures };

    ghost honest = { λ _. Unit {0} };

    fn len(&mut self) -> Result<usize, DeviceFault>
        ensures length { result ≡ Ok (length self.old.disk.moment.bytes) }
        ensures unchanged { self.new ≡ self.old }
        ensures honest { ⟦<FuseDisk as Disk>⟧.honest self.new }
    {
        self.disk.len()
    }

    fn read(&mut self, at: usize, buf: &mut [u8]) -> Result<(), DeviceFault>
        requires { at + length buf.old ≤ length self.old.disk.moment.bytes }
        ensures count { self.new ≡ counted self.new.disk self.old }
        ensures passed { fails self.old ≡ false
            → Answers result (ticked self.old.disk.moment self.old.disk) self.old.disk self.new.disk }
        ensures failed { fails self.old ≡ true → IsErr result × Fails self.old.disk.moment self.old.disk self.new.disk }
        ensures bytes { OnOk result (buf.new ≡ take (length buf.old) (drop at self.old.disk.moment.bytes)) }
        ensures failures { Counts result self.old.disk.failures self.new.disk.failures }
        ensures honest { ⟦<FuseDisk as Disk>⟧.honest self.new }
    {
        let fails = self.mode.fails(self.passes, self.calls);
        self.calls = one_more(self.calls);
        if fails {
            return Err(self.disk.fail_call());
        }
        self.disk.read(at, buf)
    }

    fn write_at(&mut self, at: usize, bytes: &[u8]) -> Result<(), DeviceFault>
        requires { at + length bytes.now ≤ length self.old.disk.moment.bytes }
        ensures count { self.new ≡ counted self.new.disk self.old }
        ensures passed { fails self.old ≡ false
            → Answers result (ticked (written at bytes.now self.old.disk.moment) self.old.disk)
            self.old.disk self.new.disk }
        ensures failed { fails self.old ≡ true → IsErr result
            × Fails (scarred at (length bytes.now) (scar_of self.old.mode) self.old.disk.moment)
            self.old.disk self.new.disk }
        ensures failures { Counts result self.old.disk.failures self.new.disk.failures }
        ensures honest { ⟦<FuseDisk as Disk>⟧.honest self.new }
    {
        let fails = self.mode.fails(self.passes, self.calls);
        self.calls = one_more(self.calls);
        if fails {
            return Err(self.disk.fail_write(at, bytes.len(), self.mode.scar()));
        }
        self.disk.write_at(at, bytes)
    }

    fn sync(&mut self) -> Result<(), DeviceFault>
        ensures count { self.new ≡ counted self.new.disk self.old }
        ensures passed { fails self.old ≡ false
            → Answers result (settled_by_sync self.old.disk) self.old.disk self.new.disk }
        ensures failed { fails self.old ≡ true → IsErr result × Fails self.old.disk.moment self.old.disk self.new.disk }
        ensures failures { Counts result self.old.disk.failures self.new.disk.failures }
        ensures honest { ⟦<FuseDisk as Disk>⟧.honest self.new }
    {
        let fails = self.mode.fails(self.passes, self.calls);
        self.calls = one_more(self.calls);
        if fails {
            return Err(self.disk.fail_call());
        }
        self.disk.sync()
    }
}
