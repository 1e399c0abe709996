//! A disk in memory. It keeps a record of its calls, which gives each past moment.
ghost use Rattle.std.specs.Prelude.{◌≡◌, ◌+◌, ◌≤◌, [], ◌∷◌, length, take, drop, IfOk, IfErr, OnOk, Ok};

use crate::record::{DeviceCall, add, fault, fill, leave, note, put};
use crate::{DeviceFault, Disk};
use im_types::Refusal;
use std::alloc::Global;
use std::marker::Model;

/// What a crash leaves of the bytes written since the last successful sync.
#[derive(Clone, Copy, Debug, PartialEq, Eq)]
pub enum Crash {
    /// The bytes as written.
    Kept,
    /// The bytes as at the last successful sync.
    Lost,
    /// This byte, in each range written since.
    Byte(u8),
}

/// A disk in memory, always honest. Its calls fail only if the record of calls cannot grow.
pub struct MemDisk {
    bytes: Vec<u8>,
    calls: Vec<DeviceCall>,
    /// How many of the calls came before the last crash. They still say which ranges are in doubt.
    begun: usize,
    failures: u64,
}

// By one call, so that whoever owns a disk isn't proved to let go each of its fields wherever it may end.
impl Drop for MemDisk {
    fn drop(self) {
        let MemDisk {
            bytes: _,
            calls: _,
            begun: _,
            failures: _,
        } = self;
    }
}

impl Model for MemDisk {
    ghost use Rattle.im_disk.specs.Recording.{Recording};

    ghost Value = { Recording };

    ghost use Rattle.im_disk.specs.Record.{IsSound, shown};

    ghost view = { λ d. shown d.bytes.items d.calls.items d.begun d.failures };

    ghost invariant = { λ d. IsSound d.bytes.items d.calls.items d.begun };
}

impl MemDisk {
    ghost use Rattle.im_disk.specs.Recording.{blank_disk};

    /// Makes a file of `len` zero bytes, all of them on the disk. Returns `NoMemory` if there is no room for them.
    pub fn new(alloc: Global, len: usize) -> Result<MemDisk, Refusal>
        ensures blank { IfOk result (λ disk. disk ≡ blank_disk len) }
        ensures honest { IfOk result (λ disk. ⟦<MemDisk as Disk>⟧.honest disk) }
        ensures refused { IfErr result (λ refusal. refusal ≡ Refusal.NoMemory) }
    {
        let Ok(bytes) = vec![in alloc; 0; len] else {
            return Err(Refusal::NoMemory);
        };
        Ok(MemDisk {
            bytes,
            calls: Vec::new(alloc),
            begun: 0,
            failures: 0,
        })
    }

    /// The bytes of the file.
    pub fn bytes(&self) -> &[u8]
        ensures bytes { result.now ≡ self.now.moment.bytes }
        ensures honest { ⟦<MemDisk as Disk>⟧.honest self.now }
    {
        &self.bytes
    }
}

impl Disk for MemDisk {
    ghost use Rattle.im_disk.specs.Moment.{Counts, Moment, written};
    ghost use Rattle.im_disk.specs.Recording.{Answers, settled_by_sync, ticked};

    ghost now = { λ d. d.moment };

    ghost past = { λ d. d.past };

    ghost failures = { λ d. d.failures };

    ghost honest = { λ _. Unit {0} };

    fn len(&mut self) -> Result<usize, DeviceFault>
        ensures length { result ≡ Ok (length self.old.moment.bytes) }
        ensures unchanged { self.new ≡ self.old }
        ensures honest { ⟦<MemDisk as Disk>⟧.honest self.new }
    {
        Ok(self.bytes.len())
    }

    fn read(&mut self, at: usize, buf: &mut [u8]) -> Result<(), DeviceFault>
        requires { at + length buf.old ≤ length self.old.moment.bytes }
        ensures bytes { OnOk result (buf.new ≡ take (length buf.old) (drop at self.old.moment.bytes)) }
        ensures answer { Answers result (ticked self.old.moment self.old) self.old self.new }
        ensures failures { Counts result self.old.failures self.new.failures }
        ensures honest { ⟦<MemDisk as Disk>⟧.honest self.new }
    {
        note(&mut self.calls, &mut self.failures, DeviceCall::Other)?;
        buf.copy_from_slice(&self.bytes[at..at + buf.len()]);
        Ok(())
    }

    fn write_at(&mut self, at: usize, bytes: &[u8]) -> Result<(), DeviceFault>
        requires { at + length bytes.now ≤ length self.old.moment.bytes }
        ensures answer { Answers result (ticked (written at bytes.now self.old.moment) self.old) self.old self.new }
        ensures failures { Counts result self.old.failures self.new.failures }
        ensures honest { ⟦<MemDisk as Disk>⟧.honest self.new }
    {
        let Ok(old) = self.bytes[at..at + bytes.len()].to_vec(*self.bytes.allocator()) else {
            return Err(fault(&mut self.failures));
        };
        note(
            &mut self.calls,
            &mut self.failures,
            DeviceCall::Wrote(at, old),
        )?;
        put(&mut self.bytes, at, bytes);
        Ok(())
    }

    fn sync(&mut self) -> Result<(), DeviceFault>
        ensures answer { Answers result (settled_by_sync self.old) self.old self.new }
        ensures failures { Counts result self.old.failures self.new.failures }
        ensures honest { ⟦<MemDisk as Disk>⟧.honest self.new }
    {
        note(&mut self.calls, &mut self.failures, DeviceCall::Synced)
    }
}

impl MemDisk {
    ghost use Rattle.im_disk.specs.Moment.{Left, MayTick, Rises, Torn};
    ghost use Rattle.im_disk.specs.Recording.{crashed, Fails, LeftBy, scarred};

    /// Returns the disk after a crash of this kind. The ranges in doubt, and what they held, stay the same until a sync
    /// succeeds. A second crash before that may still lose them. A new record of calls begins.
    pub fn crash(mut self, crash: Crash) -> MemDisk
        ensures left { Left self.moment result.moment.bytes }
        ensures kind { LeftBy crash self result.moment.bytes }
        ensures after { result ≡ crashed result.moment.bytes self }
        ensures honest { ⟦<MemDisk as Disk>⟧.honest result }
    {
        leave(&mut self.bytes, &self.calls, crash);
        self.begun = self.calls.len();
        self
    }

    /// A write of `len` bytes that fails. It leaves the bytes of its range, or fills the range with this byte. The
    /// range lies inside the file.
    pub fn fail_write(&mut self, at: usize, len: usize, byte: Option<u8>) -> DeviceFault
        requires { at + len ≤ length self.old.moment.bytes }
        ensures record { Fails (scarred at len byte self.old.moment) self.old self.new }
        ensures moment { MayTick (Torn at len) self.old.moment self.new.moment self.old.past self.new.past }
        ensures failures { Rises self.old.failures self.new.failures × (self.old.failures ≤ self.new.failures) }
        ensures honest { ⟦<MemDisk as Disk>⟧.honest self.new }
    {
        let failure = fault(&mut self.failures);
        let Ok(old) = self.bytes[at..at + len].to_vec(*self.bytes.allocator()) else {
            return failure;
        };
        if let Err(_) = add(&mut self.calls, DeviceCall::Wrote(at, old)) {
            return failure;
        }
        if let Some(byte) = byte {
            fill(&mut self.bytes, at, len, byte);
        }
        failure
    }

    /// A read or a sync that fails and changes no byte.
    pub fn fail_call(&mut self) -> DeviceFault
        ensures record { Fails self.old.moment self.old self.new }
        ensures moment { MayTick (λ m n. n ≡ m) self.old.moment self.new.moment self.old.past self.new.past }
        ensures failures { Rises self.old.failures self.new.failures × (self.old.failures ≤ self.new.failures) }
        ensures honest { ⟦<MemDisk as Disk>⟧.honest self.new }
    {
        let _ = add(&mut self.calls, DeviceCall::Other);
        fault(&mut self.failures)
    }
}
