//! Notes the calls of a file, and says when a call is allowed.
ghost use Rattle.std.specs.Prelude.{◌≡◌, ◌∷◌, IsTrue};
ghost use Rattle.im_disk.specs.Account.{accounted_call, is_measured, is_usable};

use crate::account::Ledger;
use std::fs::File;
use std::io::ErrorKind;
use std::os::unix::fs::FileExt;

// The numbers under which calls are noted.
pub(crate) const MADE: u64 = 0;

pub(crate) const MEASURED: u64 = 1;

pub(crate) const READ: u64 = 2;

pub(crate) const WRITTEN: u64 = 3;

pub(crate) const SYNCED: u64 = 4;

pub(crate) const OPENED: u64 = 5;

// Notes a call of the system. The clause allows none after a failed sync.
pub(crate) fn note(ledger: &mut Ledger, numbers: &[u64], bytes: &[u8])
    requires usable { IsTrue (is_usable ledger.old.events) }
    ensures { ledger.new.events ≡ accounted_call numbers.now bytes.now ∷ ledger.old.events }
{
    ledger.note(numbers, bytes);
}

// Notes a write. The clause allows one only if the length was checked since the last sync.
pub(crate) fn note_written(ledger: &mut Ledger, numbers: &[u64], bytes: &[u8])
    requires usable { IsTrue (is_usable ledger.old.events) }
    requires measured { IsTrue (is_measured ledger.old.events) }
    ensures { ledger.new.events ≡ accounted_call numbers.now bytes.now ∷ ledger.old.events }
{
    note(ledger, numbers, bytes);
}

// Returns whether the range lies inside a file of this length.
pub(crate) fn is_inside(at: usize, size: usize, len: u64) -> bool {
    let (at, size) = (at as u64, size as u64);
    size <= len && at <= len - size
}

// Writes what is left of some bytes after a call that wrote so many of them. Returns the kind of the error if a call
// fails. It stands by itself, so that a write that is done by one call clears no place for an error.
#[inline(never)]
fn write_rest(file: &File, at: u64, bytes: &[u8], written: usize) -> Result<(), ErrorKind> {
    let written = written.min(bytes.len());
    match file.write_all_at(&bytes[written..], at.wrapping_add(written as u64)) {
        Ok(()) => Ok(()),
        Err(error) => Err(error.kind()),
    }
}

// Writes bytes by one call of the system, or by more if that one writes only a part of them. Returns the kind of the
// error if a call fails.
pub(crate) fn write_whole(file: &File, at: u64, bytes: &[u8]) -> Result<(), ErrorKind> {
    match file.write_at(bytes, at) {
        Ok(written) if written == bytes.len() => Ok(()),
        Ok(written) => write_rest(file, at, bytes, written),
        Err(error) if error.kind() == ErrorKind::Interrupted => write_rest(file, at, bytes, 0),
        Err(error) => Err(error.kind()),
    }
}
