//! The log of a dialogue, on standard error: one line at the opening, one each minute of work, and one at the end.

use crate::shown::EscapedName;
use im_disk::Start;
use im_files::open_image_to_read;
use im_image::inspect;
use im_words::{Talking, Work};
use std::fs::File;
use std::io::Eprint;
use std::rt::Files;
use std::time::{Clock, Instant};

// The least seconds between two lines of work.
const MINUTE: u64 = 60;

/// What a log has told, and of which image. It is kept if it was asked for.
#[derive(Drop)]
pub(crate) struct DialogueLog<'a> {
    image: Option<&'a str>,
    // The lines that were read, and how many of them the log has told of.
    lines: u64,
    told: u64,
    // When it told of them last. There is none before the first read.
    since: Option<Instant>,
}

impl<'a> DialogueLog<'a> {
    /// Begins the log that a work asks for.
    pub(crate) fn new(work: &Work<&'a str>) -> DialogueLog<'a> {
        let image = match *work {
            Work::Serve(it) if it.verbose => Some(it.image),
            _ => None,
        };
        DialogueLog {
            image,
            lines: 0,
            told: 0,
            since: None,
        }
    }

    /// Tells how many lines were answered since it told so last, if a minute has passed and there were any. All that
    /// were read are answered, as more is to be read.
    pub(crate) fn tell_minute<R: Eprint + Clock>(&mut self, rt: &R) {
        let Some(image) = self.image else {
            return;
        };
        let Ok(now) = Instant::now(rt) else {
            return;
        };
        let since = self.since.unwrap_or(now);
        self.since = Some(since);
        let fresh = self.lines.saturating_sub(self.told);
        if fresh == 0 || now.duration_since(since).as_secs() < MINUTE {
            return;
        }
        self.since = Some(now);
        self.told = self.lines;
        let path = EscapedName(image);
        let all = self.lines;
        let _printed = eprintln!(rt; "imem: {path}: {fresh} lines answered, {all} in all");
    }

    /// Counts the lines that end in what was read.
    pub(crate) fn count(&mut self, read: &[u8]) {
        if self.image.is_none() {
            return;
        }
        let ends = read.iter().filter(|byte| **byte == b'\n').count() as u64;
        self.lines = self.lines.saturating_add(ends);
    }

    /// Tells that the dialogue has ended, if it had begun.
    pub(crate) fn tell_end<R: Eprint>(&self, rt: &R) {
        if let (Some(image), Some(_)) = (self.image, self.since) {
            let path = EscapedName(image);
            let lines = self.lines;
            let _printed = eprintln!(rt; "imem: {path}: the dialogue ended after {lines} lines");
        }
    }
}

/// Tells which image is opened: its sizes, and how many commands it holds. It reads the image by an opening of its own.
/// It tells nothing if there is none to read: the opening that follows says why.
pub(crate) fn tell_opening<R: Files<File = File> + AllocGlobal + Eprint, S: Start>(
    rt: &R,
    talking: &Talking<&str>,
    start: S,
) {
    if !talking.verbose {
        return;
    }
    let Ok((mut disk, _)) = open_image_to_read(rt, talking.image, start) else {
        return;
    };
    let Ok(report) = inspect(rt.alloc(), &mut disk) else {
        return;
    };
    let path = EscapedName(talking.image);
    let limits = report.header.limits;
    let (cells, elements, slots) = (limits.cells, limits.elements, limits.slots);
    let count = report.header.count.saturating_add(report.run);
    let _printed = eprintln!(rt;
        "imem: {path}: {cells} cells, {elements} elements, {slots} slots, {count} commands"
    );
}
