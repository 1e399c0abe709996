//! Makes or opens a file of the operating system: which files are accepted, under which lock, and what is then on the
//! disk.
ghost use Rattle.std.specs.{Prelude.◌≡◌, Prelude.true, Fs.asks_create_new};

use crate::Start;
use im_types::Refusal;
use std::fs::{self, File, OpenOptions, TryLockError};
use std::io::{self, ErrorKind};
use std::os::unix::fs::{MetadataExt, OpenOptionsExt};
use std::path::Path;
use std::rt::Files;

// The owner alone may read and write a file that is made.
const MODE: u32 = 0o600;

/// Why a file wasn't made or opened.
#[derive(Clone, Copy, Debug, PartialEq, Eq)]
pub enum OpenFault {
    /// Another opening of the file holds the lock. Nothing changed.
    InUse,
    /// A new file was asked for, and something already has that name. Nothing changed.
    Exists,
    /// It is no regular file: a folder, a device, a FIFO. Nothing changed.
    NotFile,
    /// The sync at the start of the opening failed with this kind. The file is there, but bytes written before may be
    /// lost, whatever the next sync returns.
    Sync(ErrorKind),
    /// Another call of the system failed with this kind.
    System(ErrorKind),
}

impl From<io::Error> for OpenFault {
    fn from(error: io::Error) -> Self {
        OpenFault::System(error.kind())
    }
}

impl From<TryLockError> for OpenFault {
    fn from(error: TryLockError) -> Self {
        match error {
            TryLockError::WouldBlock => OpenFault::InUse,
            TryLockError::Error(error) => OpenFault::from(error),
        }
    }
}

impl From<OpenFault> for Refusal {
    ghost use Rattle.im_types.specs.Types.{Device};

    ghost from_gives = { λ _ refusal. refusal ≡ Device };

    fn from(_: OpenFault) -> Self {
        Refusal::Device // Also where it is in use.
    }
}

// The check comes before the opening, because opening a FIFO would wait.
fn check_path<R: Files<File = File>>(rt: &R, path: &str) -> Result<(), OpenFault> {
    if fs::metadata(rt, path)?.is_file() {
        Ok(())
    } else {
        Err(OpenFault::NotFile)
    }
}

// Returns the length of an opened file, which has to be a regular one.
fn check_file(file: &File) -> Result<u64, OpenFault> {
    let data = file.metadata()?;
    if data.is_file() {
        Ok(data.len())
    } else {
        Err(OpenFault::NotFile)
    }
}

// Returns whether to try again: another opening holds the lock, and the start waits for it.
fn is_awaited<T, S: Start>(opened: &Result<T, OpenFault>, start: &mut S) -> bool {
    matches!(opened, Err(OpenFault::InUse)) && start.tries_again()
}

// Makes the file, or takes the one that is there. It is locked before any byte changes.
fn taken_now<R: Files<File = File>>(rt: &R, path: &str) -> Result<File, OpenFault> {
    match check_path(rt, path) {
        Ok(()) | Err(OpenFault::System(ErrorKind::NotFound)) => {}
        Err(fault) => return Err(fault),
    }
    let file = OpenOptions::new()
        .read(true)
        .write(true)
        .create(true)
        .mode(MODE)
        .open(rt, path)?;
    check_file(&file)?;
    file.try_lock()?;
    Ok(file)
}

// Like `taken_now`, but waits for the lock as long as the start does.
fn taken<R: Files<File = File>, S: Start>(
    rt: &R,
    path: &str,
    start: &mut S,
) -> Result<File, OpenFault> {
    for _ in 0..u64::MAX {
        let opened = taken_now(rt, path);
        if !is_awaited(&opened, start) {
            return opened;
        }
    }
    Err(OpenFault::InUse)
}

// The options for opening a file that has to be new.
fn exclusively() -> OpenOptions
    ensures { asks_create_new result ≡ true }
{
    let mut options = OpenOptions::new();
    options.mode(MODE);
    options.read(true);
    options.write(true);
    options.create_new(true);
    options
}

// Makes the file and locks it, only if nothing has that name.
fn taken_new<R: Files<File = File>>(rt: &R, path: &str) -> Result<File, OpenFault> {
    let file = match exclusively().open(rt, path) {
        Ok(file) => file,
        Err(error) if error.kind() == ErrorKind::AlreadyExists => return Err(OpenFault::Exists),
        Err(error) => return Err(OpenFault::from(error)),
    };
    file.try_lock()?;
    Ok(file)
}

// The folder that holds the path's name.
fn folder_of<R: Files<File = File>>(rt: &R, path: &str) -> io::Result<File> {
    let folder = match Path::new(path).parent() {
        Some(parent) => parent.as_str(),
        None => path,
    };
    File::open(rt, if folder.is_empty() { "." } else { folder })
}

// Gives an open file `len` zero bytes, and puts it and its name on the disk.
fn fill<R: Files<File = File>>(
    rt: &R,
    path: &str,
    file: &File,
    len: usize,
) -> Result<(), OpenFault> {
    file.set_len(0)?;
    file.set_len(len as u64)?;
    file.sync_all()?;
    folder_of(rt, path)?.sync_all()?;
    Ok(())
}

/// Makes and locks a file of `len` zero bytes, also over one that is there. The file and its name are on the disk. This
/// waits for the lock as long as the start does.
pub(crate) fn made<R: Files<File = File>, S: Start>(
    rt: &R,
    path: &str,
    len: usize,
    start: &mut S,
) -> Result<File, OpenFault> {
    let file = taken(rt, path, start)?;
    fill(rt, path, &file, len)?;
    Ok(file)
}

/// Like `made`, but only if nothing has that name. If making it fails part of the way, this removes its name again.
pub(crate) fn made_new<R: Files<File = File>>(
    rt: &R,
    path: &str,
    len: usize,
) -> Result<File, OpenFault> {
    let file = taken_new(rt, path)?;
    match fill(rt, path, &file, len) {
        Ok(()) => Ok(file),
        Err(fault) => {
            let _ = removed(rt, path, &file);
            Err(fault)
        }
    }
}

/// Removes the name of an open file if it still belongs to that file, and puts that on the disk.
pub(crate) fn removed<R: Files<File = File>>(
    rt: &R,
    path: &str,
    file: &File,
) -> Result<(), OpenFault> {
    let (named, open) = (fs::metadata(rt, path)?, file.metadata()?);
    if named.ino() != open.ino() || named.dev() != open.dev() {
        return Err(OpenFault::Exists);
    }
    fs::remove_file(rt, path)?;
    folder_of(rt, path)?.sync_all()?;
    Ok(())
}

// Opens a file for reading and writing, locks and syncs it, and returns it with its length.
fn settled_now<R: Files<File = File>>(rt: &R, path: &str) -> Result<(File, u64), OpenFault> {
    check_path(rt, path)?;
    let file = OpenOptions::new().read(true).write(true).open(rt, path)?;
    check_file(&file)?;
    file.try_lock()?;
    if let Err(error) = file.sync_all() {
        return Err(OpenFault::Sync(error.kind()));
    }
    let len = check_file(&file)?;
    Ok((file, len))
}

/// Opens a file for reading and writing, locks and syncs it, and returns it with its length. This waits for the lock as
/// long as the start does. Each try opens the path anew, because another file may have its name by then.
pub(crate) fn settled<R: Files<File = File>, S: Start>(
    rt: &R,
    path: &str,
    start: &mut S,
) -> Result<(File, u64), OpenFault> {
    for _ in 0..u64::MAX {
        let opened = settled_now(rt, path);
        if !is_awaited(&opened, start) {
            return opened;
        }
    }
    Err(OpenFault::InUse)
}

// Opens a file for reading, under a lock that other readers may share, and returns it with its length.
fn readable_now<R: Files<File = File>>(rt: &R, path: &str) -> Result<(File, u64), OpenFault> {
    check_path(rt, path)?;
    let file = OpenOptions::new().read(true).open(rt, path)?;
    file.try_lock_shared()?;
    let len = check_file(&file)?;
    Ok((file, len))
}

/// Like `readable_now`, but waits for the lock as long as the start does.
pub(crate) fn readable<R: Files<File = File>, S: Start>(
    rt: &R,
    path: &str,
    start: &mut S,
) -> Result<(File, u64), OpenFault> {
    for _ in 0..u64::MAX {
        let opened = readable_now(rt, path);
        if !is_awaited(&opened, start) {
            return opened;
        }
    }
    Err(OpenFault::InUse)
}
