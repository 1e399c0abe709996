//! Whether the system itself has made a file system read-only, as most of them do behind an error.

use std::alloc::{AllocError, Global};
use std::fs::{self, File};
use std::rt::Files;

// The system's list of what is mounted.
const MOUNTS: &str = "/proc/self/mountinfo";

// Spells a path as the list does.
fn spelled(alloc: Global, path: &str) -> Result<String, AllocError> {
    let mut spelled = String::new(alloc);
    for letter in path.chars() {
        match letter {
            ' ' => spelled.push_str("\\040")?,
            '\t' => spelled.push_str("\\011")?,
            '\n' => spelled.push_str("\\012")?,
            '\\' => spelled.push_str("\\134")?,
            _ => spelled.push(letter)?,
        }
    }
    Ok(spelled)
}

// Whether what is mounted at a folder contains the path, unless something is mounted between them.
fn contains(folder: &str, path: &str) -> bool {
    match path.strip_prefix(folder) {
        Some(rest) => folder == "/" || rest.is_empty() || rest.starts_with('/'),
        None => false,
    }
}

// Whether one of these options is given.
fn has_option(options: &str, one: &str, other: &str) -> bool {
    options.split(',').any(|it| it == one || it == other)
}

// Whether a line of the list is of a file system that was to be written and can't be any more.
fn is_turned(line: &str) -> bool {
    let Some((mount, own)) = line.split_once(" - ") else {
        return false;
    };
    let (Some(mount), Some(own)) = (mount.split(' ').nth(5), own.split(' ').nth(2)) else {
        return false;
    };
    has_option(mount, "rw", "rw") && has_option(own, "ro", "emergency_ro")
}

// Whether the file system that has the path is one of those, by the list.
fn is_turned_at(mounts: &str, path: &str) -> bool {
    let mut longest = 0;
    let mut found = false;
    for line in mounts.lines() {
        if let Some(folder) = line.split(' ').nth(4) {
            if folder.len() >= longest && contains(folder, path) {
                longest = folder.len();
                found = is_turned(line);
            }
        }
    }
    found
}

/// Whether the file system of a file was mounted to be written, and the system has made it read-only since then. What
/// such a file shows may not be on the disk. False if the system doesn't say.
pub(crate) fn has_turned_read_only<R: Files<File = File> + AllocGlobal>(
    rt: &R,
    path: &str,
) -> bool {
    let (Ok(mounts), Ok(path)) = (fs::read_to_string(rt, MOUNTS), fs::canonicalize(rt, path)) else {
        return false;
    };
    match spelled(rt.alloc(), path.as_path().as_str()) {
        Ok(path) => is_turned_at(mounts.as_str(), path.as_str()),
        Err(_) => false,
    }
}
