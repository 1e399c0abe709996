//! Why a file wasn't made, opened or written, in the words for a person; and how it is given up.
ghost use Rattle.std.specs.Prelude.{◌≡◌, false, not, [], IfOk, IfErr};
ghost use Rattle.{im_types.specs.Types.Refusal, im_disk.specs.File.has_failed_sync, im_files.specs.Notes.is_unneeded};
ghost use Rattle.im_program.specs.{Moving.BeginsOld, Places.IsOpenAt};

use crate::mounts::has_turned_read_only;
use im_damage::Damage;
use im_disk::{Disk, Failure, FileDisk, OpenFault, Start};
use im_files::{FileFault, Noting, note_failed_sync, open_image, open_image_to_read, remove_image};
use im_text::{CallFault, News, PathFault, Reason, Warning};
use im_types::{Observer, Refusal};
use std::fs::{self, File};
use std::io::ErrorKind;
use std::os::unix::fs::MetadataExt;
use std::path::Path;
use std::rt::Files;

/// Whether there is a folder at the path. An empty path stands for `.`.
pub(crate) fn is_folder<R: Files<File = File>>(rt: &R, path: &str) -> bool {
    match fs::metadata(rt, if path.is_empty() { "." } else { path }) {
        Ok(data) => data.is_dir(),
        Err(_) => false,
    }
}

// Whether the folder that contains the path doesn't exist.
fn has_no_folder<R: Files<File = File>>(rt: &R, path: &str) -> bool {
    match Path::new(path).parent() {
        Some(folder) => !is_folder(rt, folder.as_str()),
        None => false,
    }
}

// The reason for what the system says about a path.
fn of_system<R: Files<File = File>>(rt: &R, path: &str, kind: ErrorKind) -> PathFault {
    if path.is_empty() {
        PathFault::EmptyPath
    } else if kind == ErrorKind::NotFound && has_no_folder(rt, path) {
        PathFault::NoFolder
    } else {
        PathFault::System(kind)
    }
}

/// Returns why a file wasn't made or opened.
pub(crate) fn reason_of<R: Files<File = File>>(rt: &R, path: &str, fault: FileFault) -> PathFault {
    match fault {
        FileFault::Unsynced => PathFault::Unsynced,
        FileFault::Open(OpenFault::InUse) => PathFault::InUse,
        FileFault::Open(OpenFault::Exists) => PathFault::Exists,
        FileFault::Open(OpenFault::Sync(kind)) => PathFault::Sync(kind),
        FileFault::Open(OpenFault::System(kind)) => of_system(rt, path, kind),
        FileFault::Open(OpenFault::NotFile) => {
            if is_folder(rt, path) {
                PathFault::IsFolder
            } else {
                PathFault::NotFile
            }
        }
    }
}

/// Returns which call on an open file failed.
pub(crate) fn call_of(failure: Failure) -> CallFault {
    match failure {
        Failure::Length => CallFault::Length,
        Failure::Read(kind) => CallFault::Read(kind),
        Failure::Write(kind) => CallFault::Write(kind),
        Failure::Sync(kind) => CallFault::Sync(kind),
    }
}

/// Returns why no image was made, from the refusal and from the call that failed. `is_made` says that no file was there
/// before.
pub(crate) fn format_reason(refusal: Refusal, failure: Option<Failure>, is_made: bool) -> Reason {
    match (refusal, failure) {
        (Refusal::Device, Some(failure)) => Reason::Unmade(Some(call_of(failure)), !is_made),
        (Refusal::Device, None) => Reason::Unmade(None, !is_made),
        _ => Reason::Image(refusal, Damage::Unknown),
    }
}

/// Whether two paths name the same file.
pub(crate) fn is_one_file<R: Files<File = File>>(rt: &R, one: &str, other: &str) -> bool {
    match (fs::metadata(rt, one), fs::metadata(rt, other)) {
        (Ok(one), Ok(other)) => one.ino() == other.ino() && one.dev() == other.dev(),
        _ => false,
    }
}

/// Returns the refusal for an image that isn't made or opened, and tells the observer why.
pub(crate) fn refusal_of<R: Files<File = File>, N: Observer<News>>(
    rt: &R,
    image: &str,
    fault: FileFault,
    observer: &mut N,
) -> Refusal
    ensures { result ≡ Refusal.Device }
{
    observer.tell(News::Refused(Reason::File(reason_of(rt, image, fault))));
    Refusal::from(fault)
}

/// Opens the image at a path. If it isn't opened, the observer is told why.
pub(crate) fn image_at<R: Files<File = File> + AllocGlobal, S: Start, N: Observer<News>>(
    rt: &R,
    image: &str,
    observer: &mut N,
    start: S,
) -> Result<FileDisk<S>, Refusal>
    ensures now { IfOk result (λ disk. ⟦<FileDisk<S> as Disk>⟧.now disk ≡ S.first) }
    ensures past { IfOk result (λ disk. ⟦<FileDisk<S> as Disk>⟧.past disk ≡ []) }
    ensures named { IfOk result (λ disk. IsOpenAt ⟦<FileDisk<S> as Disk>⟧ S.path image.now disk) }
    ensures refused { IfErr result (λ refusal. refusal ≡ Refusal.Device) }
{
    match open_image(rt, image, start) {
        Ok(disk) => Ok(disk),
        Err(fault) => Err(refusal_of(rt, image, fault, observer)),
    }
}

/// Opens the image at a path only for reading, and warns if what it shows may not be on the disk. If it isn't opened,
/// the observer is told why.
pub(crate) fn image_to_read<R: Files<File = File> + AllocGlobal, S: Start, N: Observer<News>>(
    rt: &R,
    image: &str,
    observer: &mut N,
    start: S,
) -> Result<FileDisk<S>, Refusal>
    ensures found { IfOk result (λ disk. BeginsOld S.Start disk) }
    ensures named { IfOk result (λ disk. IsOpenAt ⟦<FileDisk<S> as Disk>⟧ S.path image.now disk) }
    ensures refused { IfErr result (λ refusal. refusal ≡ Refusal.Device) }
{
    match open_image_to_read(rt, image, start) {
        Ok((disk, is_unsynced)) => {
            warn(rt, image, is_unsynced, observer);
            Ok(disk)
        }
        Err(fault) => Err(refusal_of(rt, image, fault, observer)),
    }
}

/// Leaves a note beside a file, at the path at which it was opened, if a sync of it has failed.
pub(crate) fn note_beside<R: Files<File = File> + AllocGlobal, S: Start>(
    rt: &R,
    path: &str,
    disk: &FileDisk<S>,
) -> Noting
    requires named { IsOpenAt ⟦<FileDisk<S> as Disk>⟧ S.path path.now disk.now }
    ensures needed { is_unneeded result ≡ not (has_failed_sync S.Start disk.now) }
{
    note_failed_sync(rt, path, disk)
}

/// Removes a file that was made and holds no image or a torn one. A file that existed before stays. If a sync of it
/// failed, a note is left. Returns whether the file is gone.
pub(crate) fn give_up<R: Files<File = File> + AllocGlobal, S: Start>(
    rt: &R,
    image: &str,
    disk: FileDisk<S>,
    is_made: bool,
) -> bool
    requires named { IsOpenAt ⟦<FileDisk<S> as Disk>⟧ S.path image.now disk }
    ensures same { is_made ≡ false → result ≡ false }
{
    if !is_made {
        let _noted = note_beside(rt, image, &disk);
    }
    remove_image(rt, image, disk, is_made)
}

// Warns about a file that is read although what it shows may not be on the disk: a note of this boot is beside it, or
// the system has made its file system read-only.
fn warn<R: Files<File = File> + AllocGlobal, N: Observer<News>>(
    rt: &R,
    path: &str,
    is_unsynced: bool,
    observer: &mut N,
) {
    if is_unsynced {
        observer.tell(News::Warned(Warning::Unsynced));
    } else if has_turned_read_only(rt, path) {
        observer.tell(News::Warned(Warning::TurnedReadOnly));
    }
}
