//! A disk over a file of the operating system.
ghost use Rattle.std.specs.Prelude.{◌≡◌, ◌+◌, ◌≤◌, not, ◌↔◌, [], ◌∷◌, length, replicate, is_some, IfOk, OnOk, IsOk};
ghost use Rattle.std.specs.Prelude.{IsTrue, nat_lt};
ghost use Rattle.im_disk.specs.Account.{accounted_call, is_measured, is_usable, IsHonest};
ghost use Rattle.im_disk.specs.Failing.{is_of_sync};

use crate::account::Ledger;
use crate::calls::{
    MADE, MEASURED, OPENED, READ, SYNCED, WRITTEN, is_inside, note, note_written, write_whole,
};
use crate::failing::Failing;
use crate::opening::{made, made_new, readable, removed, settled};
use crate::{DeviceFault, Disk, Failure, OpenFault, Start};
use std::fs::File;
use std::io::{Seek, SeekFrom};
use std::marker::PhantomData;
use std::os::unix::fs::FileExt;
use std::rt::Files;

/// A file of the operating system. Its clauses about bytes and crashes need honesty, as on any [`Disk`]. Nothing
/// promises that a real file is honest.
///
/// The members come from the list of the file's calls and their answers, which only clauses read, and from `S`. It says
/// at which path it was opened, what it held then, and what its failing calls came to. The file is honest if an honest
/// one with that start could have given each answer. A proof over any `S: Start` holds for the real one too. The list
/// describes the real file on three conditions: nobody else writes the file, its length stays, and a sync that returns
/// `Ok` has put the bytes on the disk. docs/CRASH.md lists all assumptions.
#[derive(Drop)]
pub struct FileDisk<S: Start> {
    file: File,
    /// The length at the opening.
    len: u64,
    /// No sync has failed, and each length read was `len`. Otherwise each call fails without asking the file.
    usable: bool,
    /// The length was checked since the last sync. Otherwise nothing is written.
    measured: bool,
    failing: Failing,
    ledger: Ledger,
    start: PhantomData<S>,
    ghost looked: { IsTrue measured → IsTrue (is_measured ledger.events) },
    ghost held: { IsTrue usable → IsTrue (is_usable ledger.events) },
    ghost told: { is_of_sync failing.first ≡ not (is_usable ledger.events) },
}

impl<S: Start> FileDisk<S> {
    ghost use Rattle.im_disk.specs.File.{account_of, has_failed_sync, HasTorn, HasWritten, IsAsBefore};
    ghost use Rattle.im_disk.specs.Moment.{Counts};

    /// Makes a file of `len` zero bytes at the path, also over a file that is there. It puts the file and its name on
    /// the disk. The file is locked before any byte changes, and stays locked as long as the disk lives.
    ///
    /// Returns `InUse` if another opening holds the lock for longer than the start waits, and `NotFile` if it is no
    /// regular file: both change nothing. Returns `System` if a call of the system fails: the path may then hold any
    /// file. The clauses say what an honest file has: zero bytes, none in doubt. `S` has to name the path.
    pub fn create<R: Files<File = File>>(
        rt: &R,
        path: &str,
        len: usize,
        mut start: S,
    ) -> Result<FileDisk<S>, OpenFault>
        ensures failures { IfOk result (λ disk. ⟦<FileDisk<S> as Disk>⟧.failures disk ≡ 0) }
        ensures now { IfOk result (λ disk. ⟦<FileDisk<S> as Disk>⟧.now disk
            ≡ record { bytes = replicate len 0; ranges = [] }) }
        ensures past { IfOk result (λ disk. ⟦<FileDisk<S> as Disk>⟧.past disk ≡ []) }
        ensures honest { IfOk result (λ disk. ⟦<FileDisk<S> as Disk>⟧.honest disk ↔ (S.path ≡ path.now)) }
    {
        let file = made(rt, path, len, &mut start)?;
        Ok(noted(over(file, len as u64, path, start), len))
    }

    /// Makes a file as [`create`](FileDisk::create) does, but only if nothing is at the path, not even a link.
    ///
    /// Returns `Exists` if something is there, and changes nothing. Returns `System` if a call of the system fails. The
    /// path is then free again, unless removing the name failed too. Returns `InUse` if another program locked the new
    /// file first. The file then stays there, empty.
    pub fn create_new<R: Files<File = File>>(
        rt: &R,
        path: &str,
        len: usize,
        start: S,
    ) -> Result<FileDisk<S>, OpenFault>
        ensures failures { IfOk result (λ disk. ⟦<FileDisk<S> as Disk>⟧.failures disk ≡ 0) }
        ensures now { IfOk result (λ disk. ⟦<FileDisk<S> as Disk>⟧.now disk
            ≡ record { bytes = replicate len 0; ranges = [] }) }
        ensures past { IfOk result (λ disk. ⟦<FileDisk<S> as Disk>⟧.past disk ≡ []) }
        ensures honest { IfOk result (λ disk. ⟦<FileDisk<S> as Disk>⟧.honest disk ↔ (S.path ≡ path.now)) }
    {
        match made_new(rt, path, len) {
            Ok(file) => Ok(noted(over(file, len as u64, path, start), len)),
            Err(fault) => Err(fault),
        }
    }

    /// Opens the file at the path for reading and writing, and puts it on the disk. The file stays locked as long as
    /// the disk lives. This changes no byte of the file and reads none. Returns `InUse` if another opening holds the
    /// lock for longer than the start waits, and `NotFile` if it is no regular file. Returns `Sync` if putting it on
    /// the disk fails, and `System` if another call of the system fails.
    pub fn open<R: Files<File = File>>(
        rt: &R,
        path: &str,
        mut start: S,
    ) -> Result<FileDisk<S>, OpenFault>
        ensures failures { IfOk result (λ disk. ⟦<FileDisk<S> as Disk>⟧.failures disk ≡ 0) }
        ensures now { IfOk result (λ disk. ⟦<FileDisk<S> as Disk>⟧.now disk ≡ S.first) }
        ensures past { IfOk result (λ disk. ⟦<FileDisk<S> as Disk>⟧.past disk ≡ []) }
        ensures honest { IfOk result (λ disk. ⟦<FileDisk<S> as Disk>⟧.honest disk ↔ (S.path ≡ path.now)) }
    {
        let (file, len) = settled(rt, path, &mut start)?;
        Ok(over(file, len, path, start))
    }

    /// Opens the file at the path only for reading: each write to it fails. Others may read it. This reads no byte.
    /// Returns `InUse` if a writer holds the lock for longer than the start waits, `NotFile` if it is no regular file,
    /// and `System` if a call of the system fails.
    pub fn open_to_read<R: Files<File = File>>(
        rt: &R,
        path: &str,
        mut start: S,
    ) -> Result<FileDisk<S>, OpenFault>
        ensures failures { IfOk result (λ disk. ⟦<FileDisk<S> as Disk>⟧.failures disk ≡ 0) }
        ensures now { IfOk result (λ disk. ⟦<FileDisk<S> as Disk>⟧.now disk ≡ S.first) }
        ensures past { IfOk result (λ disk. ⟦<FileDisk<S> as Disk>⟧.past disk ≡ []) }
        ensures honest { IfOk result (λ disk. ⟦<FileDisk<S> as Disk>⟧.honest disk ↔ (S.path ≡ path.now)) }
    {
        let (file, len) = readable(rt, path, &mut start)?;
        Ok(over(file, len, path, start))
    }

    /// Returns the first failure since the opening. There is one exactly if the count of failures isn't 0. A failed
    /// sync takes the place of earlier failures, because written bytes may be lost without another error.
    pub fn failure(&self) -> Option<Failure>
        ensures some { is_some result ≡ nat_lt 0 (⟦<FileDisk<S> as Disk>⟧.failures self.now) }
        ensures sync { is_of_sync result ≡ has_failed_sync S.Start self.now }
    {
        self.failing.first()
    }

    // Checks that the length is still that of the opening. If it isn't, each later call fails.
    fn look(&mut self) -> Result<(), DeviceFault>
        ensures len { IfOk result (λ _. IsHonest (account_of S.Start self.new)
            → self.new.len ≡ length (account_of S.Start self.old).now.bytes) }
        ensures measured { IsOk result → IsTrue (is_measured self.new.ledger.events) }
        ensures same { IsAsBefore S.Start self.old self.new }
        ensures failures { Counts result self.old.failing.failures self.new.failing.failures }
    {
        if !self.usable {
            return Err(self.failing.fail(Failure::Length));
        }
        match self.file.seek(SeekFrom::End(0)) {
            Ok(len) => {
                note(&mut self.ledger, &[MEASURED, len, 1], &[]);
                if len != self.len {
                    self.usable = false;
                    return Err(self.failing.fail(Failure::Length));
                }
                Ok(())
            }
            Err(_) => {
                note(&mut self.ledger, &[MEASURED, 0, 0], &[]);
                Err(self.failing.fail(Failure::Length))
            }
        }
    }

    // Checks the length unless done since the last sync, so that nothing is written past the end of a cut file.
    fn measure(&mut self) -> Result<(), DeviceFault>
        ensures measured { IsOk result → IsTrue (is_measured self.new.ledger.events) }
        ensures same { IsAsBefore S.Start self.old self.new }
        ensures failures { Counts result self.old.failing.failures self.new.failing.failures }
    {
        if self.measured {
            return Ok(());
        }
        match self.look() {
            Ok(()) => {
                self.measured = true;
                Ok(())
            }
            Err(fault) => Err(fault),
        }
    }

    fn put(&mut self, at: usize, bytes: &[u8]) -> Result<(), DeviceFault>
        requires measured { IsTrue (is_measured self.old.ledger.events) }
        requires inside { IsHonest (account_of S.Start self.old)
            → at + length bytes.now ≤ length (account_of S.Start self.old).now.bytes }
        ensures tick { OnOk result (HasWritten S.Start at bytes.now self.old self.new) }
        ensures moment { HasTorn S.Start at (length bytes.now) self.old self.new }
        ensures failures { Counts result self.old.failing.failures self.new.failing.failures }
    {
        if !self.usable || !is_inside(at, bytes.len(), self.len) {
            return Err(self.failing.fail(Failure::Length));
        }
        match write_whole(&self.file, at as u64, bytes) {
            Ok(()) => {
                note_written(&mut self.ledger, &[WRITTEN, at as u64, 1], bytes);
                Ok(())
            }
            Err(kind) => {
                note_written(&mut self.ledger, &[WRITTEN, at as u64, 0], bytes);
                Err(self.failing.fail(Failure::Write(kind)))
            }
        }
    }

    /// Removes the name at the path if it still belongs to this file, and puts that on the disk. Returns `Exists` if
    /// another file has that name, and changes nothing. Returns `System` if a call of the system fails.
    pub fn remove<R: Files<File = File>>(self, rt: &R, path: &str) -> Result<(), OpenFault> {
        removed(rt, path, &self.file)
    }
}

// The disk over a file that was just opened at the path. It uses up one value of the start.
fn over<S: Start>(file: File, len: u64, path: &str, _start: S) -> FileDisk<S>
    ensures failures { ⟦<FileDisk<S> as Disk>⟧.failures result ≡ 0 }
    ensures events { result.ledger.events ≡ accounted_call (5 ∷ 0 ∷ 1 ∷ []) path.now ∷ [] }
{
    let mut ledger = Ledger::new();
    note(&mut ledger, &[OPENED, 0, 1], path.as_bytes());
    FileDisk {
        file,
        len,
        usable: true,
        measured: false,
        failing: Failing::new(),
        ledger,
        start: PhantomData,
    }
}

// The disk over a file that was just made with this length.
fn noted<S: Start>(mut disk: FileDisk<S>, len: usize) -> FileDisk<S>
    requires failures { ⟦<FileDisk<S> as Disk>⟧.failures disk ≡ 0 }
    requires usable { IsTrue (is_usable disk.ledger.events) }
    ensures failures { ⟦<FileDisk<S> as Disk>⟧.failures result ≡ 0 }
    ensures events { result.ledger.events ≡ accounted_call (0 ∷ len ∷ 1 ∷ []) [] ∷ disk.ledger.events }
{
    note(&mut disk.ledger, &[MADE, len as u64, 1], &[]);
    disk
}

impl<S: Start> Disk for FileDisk<S> {
    ghost use Rattle.im_disk.specs.File.{account_of};

    ghost now = { λ f. (account_of S.Start f).now };

    ghost past = { λ f. (account_of S.Start f).past };

    ghost failures = { λ f. f.failing.failures };

    ghost honest = { λ f. IsHonest (account_of S.Start f) };

    fn len(&mut self) -> Result<usize, DeviceFault> {
        match self.look() {
            Ok(()) => Ok(self.len as usize),
            Err(fault) => Err(fault),
        }
    }

    fn read(&mut self, at: usize, buf: &mut [u8]) -> Result<(), DeviceFault> {
        if !self.usable || !is_inside(at, buf.len(), self.len) {
            return Err(self.failing.fail(Failure::Length));
        }
        match self.file.read_exact_at(buf, at as u64) {
            Ok(()) => {
                note(&mut self.ledger, &[READ, at as u64, 1], buf);
                Ok(())
            }
            Err(error) => {
                note(&mut self.ledger, &[READ, at as u64, 0], &[]);
                Err(self.failing.fail(Failure::Read(error.kind())))
            }
        }
    }

    fn write_at(&mut self, at: usize, bytes: &[u8]) -> Result<(), DeviceFault> {
        match self.measure() {
            Ok(()) => self.put(at, bytes),
            Err(fault) => Err(fault),
        }
    }

    fn sync(&mut self) -> Result<(), DeviceFault> {
        self.measured = false;
        if !self.usable {
            return Err(self.failing.fail(Failure::Length));
        }
        match self.file.sync_data() {
            Ok(()) => {
                note(&mut self.ledger, &[SYNCED, 0, 1], &[]);
                Ok(())
            }
            Err(error) => {
                note(&mut self.ledger, &[SYNCED, 0, 0], &[]);
                self.usable = false; // What was written may be lost, whatever the next sync answers.
                Err(self.failing.lose(error.kind()))
            }
        }
    }
}
