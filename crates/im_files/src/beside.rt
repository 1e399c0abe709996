//! Keeps the note beside a file as a file of its own.
ghost use Rattle.std.specs.Prelude.{◌≡◌, ℕ, List, IfOk, OnOk, string_bytes};
ghost use Rattle.im_files.specs.Notes.{is_earlier, IsOfRun, note_of};

use crate::{Notes, Sight};
use std::alloc::{AllocError, Global};
use std::fs::{self, File, OpenOptions};
use std::io::{self, ErrorKind, Read, Write};
use std::os::unix::fs::FileExt;
use std::rt::Files;

// The system's name for this run of the machine is in this file.
const BOOT: &str = "/proc/sys/kernel/random/boot_id";

// 36 characters and a line feed.
const NAME: usize = 37;

/// Returns the path of a file's note: the file's path and `.unsynced`. The file must not be a link.
pub fn note_name(alloc: Global, path: &str) -> Result<String, AllocError>
    ensures name { IfOk result (λ name. string_bytes name ≡ note_of path.now) }
{
    let mut name = String::from_str(alloc, path)?;
    name.push_str(".unsynced")?;
    Ok(name)
}

/// Returns the path of the note of the file at the path. If the path is a link, the note stands beside the link's
/// target, provided that it can be found.
pub fn note_path<R: Files<File = File> + AllocGlobal>(
    rt: &R,
    path: &str,
) -> Result<String, AllocError>
    ensures name { IfOk result (λ name. (file : List ℕ) × (string_bytes name ≡ note_of file)) }
{
    let is_link = match fs::symlink_metadata(rt, path) {
        Ok(data) => data.is_symlink(),
        Err(_) => false,
    };
    if is_link {
        if let Ok(target) = fs::canonicalize(rt, path) {
            return note_name(rt.alloc(), target.as_path().as_str());
        }
    }
    note_name(rt.alloc(), path)
}

// Returns whether a note with these bytes was left in another run of the machine. `boot` is the name of this run.
fn is_of_earlier(note: &[u8], boot: &[u8]) -> bool
    ensures { result ≡ is_earlier note.now boot.now }
{
    note.len() == NAME && boot.len() == NAME && note != boot
}

// Reads the first bytes of a file and returns their number.
fn read_short<R: Files<File = File>>(rt: &R, path: &str, buf: &mut [u8]) -> io::Result<usize> {
    File::open(rt, path)?.read_at(buf, 0)
}

// What the note at this path says. A note that can't be read stands.
fn sight_of<R: Files<File = File>>(rt: &R, note: &str) -> Sight {
    match fs::symlink_metadata(rt, note) {
        Err(error) if error.kind() == ErrorKind::NotFound => return Sight::Absent,
        Ok(data) if data.is_file() => {}
        _ => return Sight::Standing,
    }
    let mut was = [0; 64];
    let mut is = [0; 64];
    let (Ok(m), Ok(n)) = (
        read_short(rt, note, &mut was),
        read_short(rt, BOOT, &mut is),
    ) else {
        return Sight::Standing;
    };
    match (was.get(..m), is.get(..n)) {
        (Some(was), Some(is)) if is_of_earlier(was, is) => Sight::Earlier,
        _ => Sight::Standing,
    }
}

// Writes a note: the name of this run of the machine, as it is read.
fn write_name<I: Read, W: Write>(boot: &mut I, note: &mut W) -> io::Result<()>
    ensures standing { OnOk result (IsOfRun (I.remaining boot.old) (W.contents note.old) (W.contents note.new)) }
{
    let mut name = [0; NAME];
    boot.read_exact(&mut name)?;
    note.write_all(&name)?;
    Ok(())
}

// Writes the note into a new file. It needn't reach the disk, because the next run doesn't need it.
fn write_note<R: Files<File = File>>(rt: &R, note: &str) -> io::Result<()> {
    let mut boot = File::open(rt, BOOT)?;
    let _ = fs::remove_file(rt, note);
    let mut file = OpenOptions::new()
        .write(true)
        .create_new(true)
        .open(rt, note)?;
    match write_name(&mut boot, &mut file) {
        Ok(()) => Ok(()),
        Err(error) => {
            let _ = fs::remove_file(rt, note);
            Err(error)
        }
    }
}

/// The note of one file, as it was when this was made.
#[derive(Drop)]
pub struct FileNotes {
    note: String,
    sight: Sight,
}

impl FileNotes {
    /// Looks at the note beside the file at the path. If the path is a link, the note is beside the link's target.
    pub fn beside<R: Files<File = File> + AllocGlobal>(
        rt: &R,
        path: &str,
    ) -> Result<FileNotes, AllocError> {
        let note = note_path(rt, path)?;
        let sight = sight_of(rt, note.as_str());
        Ok(FileNotes { note, sight })
    }
}

impl Notes for FileNotes {
    ghost sight = { λ notes. notes.sight };

    fn look(&self) -> Sight {
        self.sight
    }

    fn leave<R: Files<File = File>>(&mut self, rt: &R) -> Result<(), ErrorKind> {
        match write_note(rt, self.note.as_str()) {
            Ok(()) => {
                self.sight = Sight::Standing;
                Ok(())
            }
            Err(error) => Err(error.kind()),
        }
    }

    fn take_away<R: Files<File = File>>(&mut self, rt: &R) {
        if fs::remove_file(rt, self.note.as_str()).is_ok() {
            self.sight = Sight::Absent;
        }
    }
}
