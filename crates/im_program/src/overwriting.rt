//! Decides whether an existing file may be replaced, by asking if somebody can be asked. If nobody can, and the file is
//! no image, a line tells what was replaced.

use crate::console::Console;
use crate::shown::EscapedName;
use im_disk::Unknown;
use im_files::open_image_to_read;
use im_image::inspect;
use im_types::Refusal;
use std::fmt::{self, Display, Formatter};
use std::fs::{self, File};
use std::io::{BufRead, Eprint};
use std::rt::Files;

// What is at the path of the file that is to be made. Its text is for a person.
#[derive(Clone, Copy)]
enum ExistingFile {
    // An image with this number of commands.
    Image(u64),
    // A damaged image of so many bytes.
    Damaged(u64),
    // Another file of so many bytes.
    Other(u64),
    // A file that can't be read.
    Unread,
}

impl Display for ExistingFile {
    fn fmt<W: fmt::Write>(&self, f: &mut Formatter<W>) -> fmt::Result {
        match *self {
            ExistingFile::Image(1) => f.write_str("an image with 1 command"),
            ExistingFile::Image(count) => write!(f, "an image with {count} commands"),
            ExistingFile::Damaged(_) => f.write_str("a damaged image"),
            ExistingFile::Other(_) | ExistingFile::Unread => {
                f.write_str("a file that isn't empty, and no image")
            }
        }
    }
}

// What a file of so many bytes is that can't be read as an image.
fn unlike(refusal: Refusal, bytes: u64) -> ExistingFile {
    match refusal {
        Refusal::BadPage | Refusal::BadRecord => ExistingFile::Damaged(bytes),
        Refusal::Device | Refusal::NoMemory => ExistingFile::Unread,
        _ => ExistingFile::Other(bytes),
    }
}

// What is at the path, if a file is there and isn't empty.
fn found_at<R: Files<File = File> + AllocGlobal>(rt: &R, path: &str) -> Option<ExistingFile> {
    let bytes = match fs::metadata(rt, path) {
        Ok(data) if data.is_file() && data.len() > 0 => data.len(),
        _ => return None,
    };
    let Ok((mut disk, _)) = open_image_to_read(rt, path, Unknown) else {
        return Some(ExistingFile::Unread);
    };
    match inspect(rt.alloc(), &mut disk) {
        Ok(report) => Some(ExistingFile::Image(report.header.count.saturating_add(report.run))),
        Err(refusal) => Some(unlike(refusal, bytes)),
    }
}

// Whether the next line of the input is `y`.
fn says_yes<R: AllocGlobal, I: BufRead>(rt: &R, input: &mut I) -> bool {
    let mut line = String::new(rt.alloc());
    match input.read_line(&mut line) {
        Ok(_) => line.as_str().trim_ascii() == "y",
        Err(_) => false,
    }
}

/// What is lost if a new image replaces it, where nobody was asked.
#[derive(Clone, Copy)]
pub(crate) struct Loss {
    found: Option<ExistingFile>,
}

impl Loss {
    /// Nothing is lost, as far as is known.
    pub(crate) fn none() -> Loss {
        Loss { found: None }
    }

    /// Tells of the file at the path that was replaced, if it was one that isn't empty, and no image.
    pub(crate) fn tell<R: AllocGlobal + Eprint>(self, rt: &R, path: &str) {
        let path = EscapedName(path);
        let _printed = match self.found {
            Some(ExistingFile::Other(1)) => {
                eprintln!(rt; "imem: {path}: 1 byte that was no image is replaced")
            }
            Some(ExistingFile::Other(bytes)) => {
                eprintln!(rt; "imem: {path}: {bytes} bytes that were no image are replaced")
            }
            Some(ExistingFile::Damaged(bytes)) => {
                eprintln!(rt; "imem: {path}: {bytes} bytes of a damaged image are replaced")
            }
            Some(ExistingFile::Image(_) | ExistingFile::Unread) | None => Ok(()),
        };
    }
}

/// Whether a file may be made at the path: nothing is lost, nobody can be asked, or the answer is yes. Where nobody can
/// be asked, `loss` becomes what is lost.
pub(crate) fn may_be_made<R: Files<File = File> + AllocGlobal + Eprint, I: BufRead>(
    rt: &R,
    path: &str,
    input: &mut I,
    console: &Console<'_, R>,
    loss: &mut Loss,
) -> bool {
    let found = found_at(rt, path);
    if !console.may_ask() {
        *loss = Loss { found };
        return true;
    }
    match found {
        None => true,
        Some(found) => {
            console.ask(path, &found);
            says_yes(rt, input)
        }
    }
}
