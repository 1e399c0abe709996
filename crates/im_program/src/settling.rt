//! Leaves the note of a failed sync, and prints which call on a file failed.
ghost use Rattle.std.specs.Prelude.{◌≡◌, not, IfSome};
ghost use Rattle.{im_disk.specs.Failing.is_of_sync, im_files.specs.Notes.is_unneeded};
ghost use Rattle.im_program.specs.Places.{IsOpenAt};

use crate::console::Console;
use crate::opening::note_beside;
use im_disk::{Disk, Failure, FileDisk, Start};
use im_files::Noting;
use std::fs::File;
use std::io::Eprint;
use std::rt::Files;

// Prints which call on the image's file failed, and whether a note was left. A failed sync asks for one.
fn tell<R: Files<File = File> + AllocGlobal + Eprint>(
    console: &mut Console<'_, R>,
    failure: Option<Failure>,
    noting: Noting,
)
    requires noted { is_unneeded noting ≡ not (is_of_sync failure) }
{
    console.settle(failure, noting);
}

// The same of a new file.
fn tell_new<R: Files<File = File> + AllocGlobal + Eprint>(
    console: &mut Console<'_, R>,
    failure: Option<Failure>,
    noting: Noting,
)
    requires noted { is_unneeded noting ≡ not (is_of_sync failure) }
{
    console.settle_new(failure, noting);
}

/// Prints which call on the image's disk failed, if one was opened. Leaves a note if a sync failed.
pub(crate) fn settle_if<R: Files<File = File> + AllocGlobal + Eprint, S: Start>(
    rt: &R,
    image: &str,
    disk: &Option<FileDisk<S>>,
    console: &mut Console<'_, R>,
)
    requires named { IfSome disk.now (λ it. IsOpenAt ⟦<FileDisk<S> as Disk>⟧ S.path image.now it) }
{
    match disk {
        Some(disk) => tell(console, disk.failure(), note_beside(rt, image, disk)),
        None => console.settle(None, Noting::Unneeded),
    }
}

// Returns which call on the old file's disk failed, if one was opened.
fn failure_of<T: Start>(old: &Option<FileDisk<T>>) -> Option<Failure> {
    match old {
        Some(old) => old.failure(),
        None => None,
    }
}

/// The same of the disk of a new file, and of that of the old one, which was only read.
pub(crate) fn settle_new<R: Files<File = File> + AllocGlobal + Eprint, S: Start, T: Start>(
    rt: &R,
    path: &str,
    disk: &FileDisk<S>,
    old: &Option<FileDisk<T>>,
    console: &mut Console<'_, R>,
)
    requires named { IsOpenAt ⟦<FileDisk<S> as Disk>⟧ S.path path.now disk.now }
{
    tell_new(console, disk.failure(), note_beside(rt, path, disk));
    console.settle(failure_of(old), Noting::Unneeded);
}
