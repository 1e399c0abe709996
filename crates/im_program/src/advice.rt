//! What a person is told to do about a refusal, or about a report that has nothing of what was asked for.

use crate::shown::EscapedName;
use im_damage::Damage;
use im_disk::Unknown;
use im_files::open_image_to_read;
use im_image::{Versions, read_header};
use im_report::{Filter, View};
use im_text::{CallFault, PathFault, Reason};
use im_types::{Limits, Refusal};
use im_words::Work;
use std::fs::{self, File};
use std::io::{self, Eprint, ErrorKind, Read};
use std::rt::Files;

// The fourth to the eighth byte of an image: the high byte of the version, and the letters.
const LETTERS: &[u8] = b"\0IMEM";

/// Whether the work serves requests on the image of a file, so that one of them may be in doubt.
pub(crate) fn serves(work: &Work<&str>) -> bool {
    matches!(work, Work::Serial(_) | Work::Run(_) | Work::Serve(_))
}

/// Whether a reason waits for what the disk says, because a call on the disk failed.
pub(crate) fn is_of_call(reason: Reason) -> bool {
    matches!(
        reason,
        Reason::Image(Refusal::Device, _)
            | Reason::New(Refusal::Device)
            | Reason::Request(_, Refusal::Device)
            | Reason::Request(_, Refusal::Failed)
    )
}

/// Whether the file at the path begins as an image does. A FIFO isn't opened, since nobody may write to it.
pub(crate) fn begins_as_image<R: Files<File = File>>(rt: &R, path: &str) -> bool {
    match fs::metadata(rt, path) {
        Ok(data) if data.is_file() => {}
        _ => return false,
    }
    let Ok(mut file) = File::open(rt, path) else {
        return false;
    };
    let mut start = [0; 8];
    file.read_exact(&mut start).is_ok() && start.ends_with(LETTERS)
}

/// Prints why the work on a file is refused, and what there is to do.
pub(crate) fn print_advised<R: Files<File = File> + Eprint>(
    rt: &R,
    name: &str,
    reason: Reason,
    serves: bool,
) -> io::Result<()> {
    let path = EscapedName(name);
    match reason {
        Reason::File(PathFault::InUse) | Reason::NewFile(PathFault::InUse) => {
            eprintln!(rt; "imem: {path} is in use by another program: --wait SECONDS tries again")
        }
        Reason::File(PathFault::Exists) | Reason::NewFile(PathFault::Exists) => {
            eprintln!(rt; "imem: {path}: {reason}; name a new file")
        }
        Reason::File(PathFault::System(ErrorKind::NotFound)) if serves => {
            eprintln!(rt; "imem: {path}: {reason}; 'imem format --new {path}' makes an image")
        }
        Reason::Script(_) if begins_as_image(rt, name) => {
            eprintln!(rt; "imem: {path} is an image: the order is IMAGE SCRIPT")
        }
        Reason::New(Refusal::WrongLength) => {
            eprintln!(rt; "imem: {path} is there already; name a new file")
        }
        Reason::Image(_, Damage::Short(bytes)) => {
            eprintln!(rt; "imem: {path}: it is no image: it has {bytes} bytes")
        }
        Reason::Call(CallFault::Sync(_)) | Reason::NewCall(CallFault::Sync(_)) => {
            eprintln!(rt; "imem: {path}: {reason}")
        }
        Reason::Call(fault) if !serves => eprintln!(rt; "imem: {path}: {fault}"),
        Reason::NewCall(fault) => {
            eprintln!(rt; "imem: {path}: {fault}; the same command begins again")
        }
        _ => eprintln!(rt; "imem: {path}: {reason}"),
    }
}

// The limits of the image at a path, if it can be read.
fn limits_at<R: Files<File = File> + AllocGlobal>(rt: &R, image: &str) -> Option<Limits> {
    let Ok((mut disk, _)) = open_image_to_read(rt, image, Unknown) else {
        return None;
    };
    let header = read_header(&mut disk, Versions::Any).ok()?;
    Some(header.limits)
}

// Prints which cells or elements the image has, if a filter names only others.
fn tell_if_outside<R: Files<File = File> + AllocGlobal + Eprint>(
    rt: &R,
    image: &str,
    filter: &Filter,
) {
    if filter.cells.is_none() && filter.element.is_none() {
        return;
    }
    let Some(limits) = limits_at(rt, image) else {
        return;
    };
    let path = EscapedName(image);
    if filter.cells.is_some_and(|span| span.from >= limits.cells) {
        let last = limits.cells.saturating_sub(1);
        let _printed = eprintln!(rt; "imem: {path}: the image has cells 0 to {last}");
    }
    if filter
        .element
        .is_some_and(|element| element >= u32::from(limits.elements))
    {
        let last = limits.elements.saturating_sub(1);
        let _printed = eprintln!(rt; "imem: {path}: the image has elements 0 to {last}");
    }
}

/// Prints which cells or elements the image has, if a report that was printed was asked for others alone.
pub(crate) fn tell_what_there_is<R: Files<File = File> + AllocGlobal + Eprint>(
    rt: &R,
    work: &Work<&str>,
    status: u8,
) {
    let Work::Inspect(it) = *work else {
        return;
    };
    match it.look {
        View::Report(filter) | View::ReportJson(filter) if status == 0 => {
            tell_if_outside(rt, it.image, &filter)
        }
        _ => {}
    }
}
