//! Keeps the numbers of the standard streams in use, so that no opened file gets one of them.

use std::fs::File;
use std::os::fd::{AsFd, AsRawFd};
use std::rt::Files;

// What is opened in place of a closed stream. It is opened for reading, so a write to it fails.
const NOWHERE: &str = "/dev/null";

/// Keeps descriptors 0 to 2 in use as long as this value lives. The system gives the least free number, so an image
/// could otherwise get the number of a closed stream, and output would overwrite it. Each call that opens a file takes
/// this value. Only [`Descriptors::hold`] makes it, so no file is opened before.
#[derive(Drop)]
pub struct Descriptors {
    first: Option<File>,
    second: Option<File>,
    third: Option<File>,
}

// Whether a stream is open.
fn is_open<T: AsFd>(stream: &T) -> bool {
    stream.as_fd().try_clone_to_owned().is_ok()
}

// Whether a file has this number.
fn has(file: &Option<File>, number: i32) -> bool {
    match file {
        Some(file) => file.as_raw_fd() == number,
        None => false,
    }
}

impl Descriptors {
    /// Takes those of the three numbers that are free, by opening /dev/null three times. Returns `None` if /dev/null
    /// can't be opened three times and one of the streams is closed, or isn't known to be open. Then no file may be
    /// opened.
    pub fn hold<R: Files<File = File>, I: AsFd, O: AsFd, E: AsFd>(
        rt: &R,
        input: &I,
        output: &O,
        errors: &E,
    ) -> Option<Descriptors> {
        let held = Descriptors {
            first: File::open(rt, NOWHERE).ok(),
            second: File::open(rt, NOWHERE).ok(),
            third: File::open(rt, NOWHERE).ok(),
        };
        if held.is_whole() || is_open(input) && is_open(output) && is_open(errors) {
            Some(held)
        } else {
            None
        }
    }

    // Whether /dev/null was opened three times.
    fn is_whole(&self) -> bool {
        self.first.is_some() && self.second.is_some() && self.third.is_some()
    }

    /// Whether the stream with this number, 0 to 2, was closed. /dev/null is then in its place.
    pub fn stands_for(&self, number: i32) -> bool {
        has(&self.first, number) || has(&self.second, number) || has(&self.third, number)
    }
}
