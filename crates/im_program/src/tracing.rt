//! The file of a run's trace.
ghost use Rattle.std.specs.{Prelude.◌≡◌, Prelude.true, Fs.asks_create_new};

use crate::console::Console;
use crate::descriptors::Descriptors;
use crate::opening::reason_of;
use im_disk::OpenFault;
use im_files::FileFault;
use im_run::{Trace, write_trace};
use im_text::{PathFault, Reason};
use im_types::Refusal;
use std::fs::{self, File, OpenOptions};
use std::io::{Eprint, ErrorKind};
use std::rt::Files;

// Why no file was made at the path.
fn fault_of<R: Files<File = File>>(rt: &R, path: &str, kind: ErrorKind) -> PathFault {
    match kind {
        ErrorKind::AlreadyExists => PathFault::Exists,
        _ => reason_of(rt, path, FileFault::Open(OpenFault::System(kind))),
    }
}

// The options for opening a file that has to be new.
fn anew() -> OpenOptions
    ensures { asks_create_new result ≡ true }
{
    let mut options = OpenOptions::new();
    options.write(true);
    options.create_new(true);
    options
}

// Makes the new file that a trace is to be written to. Returns `Device`, and tells the person why, if something is at
// the path already or a call of the system fails.
fn make_file<R: Files<File = File> + AllocGlobal + Eprint>(
    rt: &R,
    _held: &Descriptors,
    path: &str,
    console: &mut Console<'_, R>,
) -> Result<File, Refusal> {
    match anew().open(rt, path) {
        Ok(file) => Ok(file),
        Err(error) => {
            console.refuse_trace(path, Reason::File(fault_of(rt, path, error.kind())));
            Err(Refusal::Device)
        }
    }
}

/// Makes the file, if a trace is asked for.
pub(crate) fn make_file_if<'a, R: Files<File = File> + AllocGlobal + Eprint>(
    rt: &R,
    held: &Descriptors,
    path: Option<&'a str>,
    console: &mut Console<'_, R>,
) -> Result<Option<(&'a str, File)>, Refusal> {
    match path {
        Some(path) => match make_file(rt, held, path, console) {
            Ok(file) => Ok(Some((path, file))),
            Err(refusal) => Err(refusal),
        },
        None => Ok(None),
    }
}

/// Writes the trace of a run to its file, if one was made. Tells the person if a write fails. If nothing was run, the
/// file is removed.
pub(crate) fn keep_trace<R: Files<File = File> + AllocGlobal + Eprint>(
    rt: &R,
    file: Option<(&str, File)>,
    trace: Option<Trace>,
    objects: bool,
    console: &Console<'_, R>,
) {
    let Some((path, mut file)) = file else {
        return;
    };
    match trace {
        Some(trace) => match write_trace(rt.alloc(), &trace, objects, &mut file) {
            Ok(()) => {}
            Err(reason) => console.tell_trace(path, reason),
        },
        None => {
            let _removed = fs::remove_file(rt, path);
        }
    }
}
