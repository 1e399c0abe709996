//! What the note beside a file decides: whether the file is opened, and when a note is left.
ghost use Rattle.std.specs.Prelude.{◌≡◌, true, false, not, ◌≢◌, IfOk, IfErr, OnErr};
ghost use Rattle.im_disk.specs.File.{has_failed_sync};
ghost use Rattle.im_files.specs.{declared.image.FileFault.TheVariants.Unsynced, Notes.is_unneeded};
ghost use Rattle.im_files.specs.declared.notes.{Noting.TheVariants.Left, Sight.TheVariants.Standing};

use crate::{FileFault, Notes, Noting, Sight};
use im_disk::{Failure, FileDisk, Start};
use std::fs::File;
use std::rt::Files;

/// Returns what was opened for writing, unless the note stands. Then it returns `Unsynced`. It removes an earlier note.
pub fn admit<R: Files<File = File>, D: Drop, N: Notes>(
    rt: &R,
    opened: D,
    notes: &mut N,
) -> Result<D, FileFault>
    ensures found { IfOk result (λ d. (d ≡ opened) × (N.sight notes.old ≢ Standing)) }
    ensures refused { IfErr result (λ fault. (fault ≡ Unsynced) × (N.sight notes.old ≡ Standing)) }
    ensures same { OnErr result (N.sight notes.new ≡ N.sight notes.old) }
{
    match notes.look() {
        Sight::Standing => Err(FileFault::Unsynced),
        Sight::Earlier => {
            notes.take_away(rt);
            Ok(opened)
        }
        Sight::Absent => Ok(opened),
    }
}

/// Returns whether the note stands.
pub fn stands<N: Notes>(notes: &N) -> bool
    ensures yes { result ≡ true → N.sight notes.now ≡ Standing }
    ensures no { result ≡ false → N.sight notes.now ≢ Standing }
{
    match notes.look() {
        Sight::Standing => true,
        Sight::Absent | Sight::Earlier => false,
    }
}

/// Leaves a note if a sync of the file has failed since it was opened. Otherwise it does nothing.
pub fn note_on<R: Files<File = File>, S: Start, N: Notes>(
    rt: &R,
    disk: &FileDisk<S>,
    notes: &mut N,
) -> Noting
    ensures needed { is_unneeded result ≡ not (has_failed_sync S.Start disk.now) }
    ensures left { result ≡ Left → N.sight notes.new ≡ Standing }
    ensures same { is_unneeded result ≡ true → N.sight notes.new ≡ N.sight notes.old }
{
    match disk.failure() {
        Some(Failure::Sync(_)) => match notes.leave(rt) {
            Ok(()) => Noting::Left,
            Err(kind) => Noting::Failed(kind),
        },
        _ => Noting::Unneeded,
    }
}
