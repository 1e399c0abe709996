//! Makes, opens and removes the file of an image.
ghost use Rattle.std.specs.Prelude.{◌≡◌, true, false, not, ◌↔◌, [], replicate, IfOk};
ghost use Rattle.im_disk.specs.File.{has_failed_sync};
ghost use Rattle.im_files.specs.Notes.{is_unneeded};

use crate::{FileNotes, Notes, Noting, admit, note_on, stands};
use im_disk::{Disk, Failure, FileDisk, OpenFault, Start};
use im_types::Refusal;
use std::alloc::AllocError;
use std::fs::{self, File};
use std::io::ErrorKind;
use std::rt::Files;

/// Why an image's file wasn't made or opened.
#[derive(Clone, Copy, Debug, PartialEq, Eq)]
pub enum FileFault {
    /// The file can't be made or opened. If its sync failed (`OpenFault::Sync`), a note was left if that was possible.
    Open(OpenFault),
    /// By the note beside it, a sync of the file has failed since the machine started. The note stays. What the file
    /// shows may not be on the disk. The note may be removed after the file system is mounted anew. Otherwise the
    /// machine has to be restarted.
    Unsynced,
}

impl From<OpenFault> for FileFault {
    fn from(fault: OpenFault) -> Self {
        FileFault::Open(fault)
    }
}

impl From<AllocError> for FileFault {
    fn from(_: AllocError) -> Self {
        FileFault::Open(OpenFault::System(ErrorKind::OutOfMemory))
    }
}

impl From<FileFault> for Refusal {
    ghost use Rattle.im_types.specs.Types.{Device};

    ghost from_gives = { λ _ refusal. refusal ≡ Device };

    fn from(_: FileFault) -> Self {
        Refusal::Device
    }
}

/// Opens the file of an image for reading and writing, as [`FileDisk::open`] does. It waits for the lock as the start
/// does. It looks at the note while the file is locked and before it reads a byte. Returns `Unsynced` if the note
/// stands, and removes an earlier note. The file's bytes don't change.
pub fn open_image<R: Files<File = File> + AllocGlobal, S: Start>(
    rt: &R,
    path: &str,
    start: S,
) -> Result<FileDisk<S>, FileFault>
    ensures failures { IfOk result (λ disk. ⟦<FileDisk<S> as Disk>⟧.failures disk ≡ 0) }
    ensures now { IfOk result (λ disk. ⟦<FileDisk<S> as Disk>⟧.now disk ≡ S.first) }
    ensures past { IfOk result (λ disk. ⟦<FileDisk<S> as Disk>⟧.past disk ≡ []) }
    ensures honest { IfOk result (λ disk. ⟦<FileDisk<S> as Disk>⟧.honest disk ↔ (S.path ≡ path.now)) }
{
    match FileDisk::open(rt, path, start) {
        Ok(disk) => {
            let mut notes = FileNotes::beside(rt, path)?;
            admit(rt, disk, &mut notes)
        }
        Err(fault) => {
            if let OpenFault::Sync(_) = fault {
                let _ = leave_note(rt, path);
            }
            Err(FileFault::Open(fault))
        }
    }
}

/// Opens the file of an image only for reading, as [`FileDisk::open_to_read`] does. It also returns whether the note
/// stands. If it does, what is read may not be on the disk. The note stays.
pub fn open_image_to_read<R: Files<File = File> + AllocGlobal, S: Start>(
    rt: &R,
    path: &str,
    start: S,
) -> Result<(FileDisk<S>, bool), FileFault>
    ensures failures { IfOk result (λ r. ⟦<FileDisk<S> as Disk>⟧.failures r.0 ≡ 0) }
    ensures now { IfOk result (λ r. ⟦<FileDisk<S> as Disk>⟧.now r.0 ≡ S.first) }
    ensures past { IfOk result (λ r. ⟦<FileDisk<S> as Disk>⟧.past r.0 ≡ []) }
    ensures honest { IfOk result (λ r. ⟦<FileDisk<S> as Disk>⟧.honest r.0 ↔ (S.path ≡ path.now)) }
{
    let disk = FileDisk::open_to_read(rt, path, start)?;
    let notes = FileNotes::beside(rt, path)?;
    Ok((disk, stands(&notes)))
}

/// Makes the file of an image, of `len` zero bytes. It also returns whether nothing was at the path before. Such a file
/// may be removed again ([`remove_image`]) if it doesn't become an image.
///
/// With `is_new`, returns `Exists` if something is there, and changes nothing. Without it, a file that is there is made
/// over, as [`FileDisk::create`] does. The note of the earlier file is removed, because none of its bytes remain.
pub fn make_image<R: Files<File = File> + AllocGlobal, S: Start>(
    rt: &R,
    path: &str,
    len: usize,
    is_new: bool,
    start: S,
) -> Result<(FileDisk<S>, bool), FileFault>
    ensures failures { IfOk result (λ r. ⟦<FileDisk<S> as Disk>⟧.failures r.0 ≡ 0) }
    ensures now { IfOk result (λ r. ⟦<FileDisk<S> as Disk>⟧.now r.0
        ≡ record { bytes = replicate len 0; ranges = [] }) }
    ensures past { IfOk result (λ r. ⟦<FileDisk<S> as Disk>⟧.past r.0 ≡ []) }
    ensures honest { IfOk result (λ r. ⟦<FileDisk<S> as Disk>⟧.honest r.0 ↔ (S.path ≡ path.now)) }
    ensures made { IfOk result (λ r. is_new ≡ true → r.1 ≡ true) }
{
    let is_made = is_new || is_free(rt, path);
    let disk = if is_made {
        FileDisk::create_new(rt, path, len, start)?
    } else {
        FileDisk::create(rt, path, len, start)?
    };
    if let Ok(mut notes) = FileNotes::beside(rt, path) {
        notes.take_away(rt);
    }
    Ok((disk, is_made))
}

// Returns whether nothing is at the path, not even a link.
fn is_free<R: Files<File = File>>(rt: &R, path: &str) -> bool {
    match fs::symlink_metadata(rt, path) {
        Ok(_) => false,
        Err(error) => error.kind() == ErrorKind::NotFound,
    }
}

/// Removes a file that [`make_image`] made, if nothing was at its path before. Returns whether the file is gone. A file
/// that was there before stays.
pub fn remove_image<R: Files<File = File>, S: Start>(
    rt: &R,
    path: &str,
    disk: FileDisk<S>,
    is_made: bool,
) -> bool
    ensures same { is_made ≡ false → result ≡ false }
{
    if !is_made {
        return false; // It was there before.
    }
    disk.remove(rt, path).is_ok()
}

/// Leaves a note beside the file of an image. It says that a sync of the file failed in this run of the machine.
pub fn leave_note<R: Files<File = File> + AllocGlobal>(
    rt: &R,
    path: &str,
) -> Result<(), ErrorKind> {
    match FileNotes::beside(rt, path) {
        Ok(mut notes) => notes.leave(rt),
        Err(_) => Err(ErrorKind::OutOfMemory),
    }
}

/// Leaves a note beside the file of an image if a sync of it has failed since it was opened. Otherwise it does nothing.
/// Call it while the disk is there, so that the file is still locked.
pub fn note_failed_sync<R: Files<File = File> + AllocGlobal, S: Start>(
    rt: &R,
    path: &str,
    disk: &FileDisk<S>,
) -> Noting
    ensures needed { is_unneeded result ≡ not (has_failed_sync S.Start disk.now) }
{
    match FileNotes::beside(rt, path) {
        Ok(mut notes) => note_on(rt, disk, &mut notes),
        Err(_) => match disk.failure() {
            Some(Failure::Sync(_)) => Noting::Failed(ErrorKind::OutOfMemory),
            _ => Noting::Unneeded,
        },
    }
}
