//! What is told of work while it goes on.

use crate::formatting::limits_of;
use crate::shown::{EscapedName, paths_of};
use im_image::image_length;
use im_serving::{EarlierAnswer, Standing, Teller};
use im_text::{OutputLine, Waited, make_confirmed, make_words};
use im_types::Observer;
use im_words::Work;
use std::alloc::AllocError;
use std::fs::{self, File};
use std::io::Eprint;
use std::rt::Files;

// The number of checkpoint turns between two lines about how a run stands.
const TURNS: u64 = 1_024;

// The least bytes of an image of which it is told that they are read or written in one go.
const LARGE: u64 = 16_777_216;

// How many bytes of an image are read or written before anything is printed.
fn bytes_of<R: Files<File = File>>(rt: &R, work: &Work<&str>) -> u64 {
    if let Work::Format(it) = *work {
        return match limits_of(it.cells, it.elements, it.slots) {
            Ok(limits) => image_length(limits) as u64,
            Err(_) => 0,
        };
    }
    match fs::metadata(rt, paths_of(work).0) {
        Ok(data) => data.len(),
        Err(_) => 0,
    }
}

/// Tells whoever watches how many bytes of a large image are read or written before anything is printed.
pub(crate) fn tell_size<R: Files<File = File> + Eprint>(
    rt: &R,
    work: &Work<&str>,
    is_watched: bool,
) {
    let bytes = if is_watched { bytes_of(rt, work) } else { 0 };
    if bytes < LARGE {
        return;
    }
    let path = EscapedName(paths_of(work).0);
    let done = if matches!(work, Work::Format(_)) {
        "written"
    } else {
        "read"
    };
    let _printed = eprintln!(rt; "imem: {path}: {bytes} bytes are {done} first");
}

/// Prints the answer to a request that waited when the image was opened.
pub(crate) fn print_answer<R: Eprint + AllocGlobal>(rt: &R, waited: Waited) {
    let mut line = String::new(rt.alloc());
    if make_words(&mut line, OutputLine::Now(waited)).is_ok() {
        let _printed = rt.eprint(line.as_str());
    }
}

/// Prints an entry of an earlier script that is confirmed.
pub(crate) fn print_confirmed<R: Eprint + AllocGlobal>(rt: &R, it: Waited) {
    let mut line = String::new(rt.alloc());
    if make_confirmed(&mut line, it).is_ok() {
        let _printed = rt.eprint(line.as_str());
    }
}

/// Prints on standard error for the thread that keeps checkpoints in a run, and for the servers: what they find of
/// earlier scripts, before they confirm it.
pub struct Watch<'a, R> {
    rt: &'a R,
    is_watched: bool,
    turn: u64,
}

impl<'a, R> Watch<'a, R> {
    /// Makes the watch. It prints how the run stands if `is_watched`.
    pub fn new(rt: &'a R, is_watched: bool) -> Watch<'a, R> {
        Watch {
            rt,
            is_watched,
            turn: 0,
        }
    }
}

impl<R> Clone for Watch<'_, R> {
    fn clone(&self) -> Result<Self, AllocError> {
        Ok(*self)
    }
}

impl<R> Copy for Watch<'_, R> {}

impl<R: Eprint> Observer<Standing> for Watch<'_, R> {
    fn listens(&mut self) -> bool {
        let is_due = self.turn % TURNS == 0;
        self.turn = self.turn.wrapping_add(1);
        self.is_watched && is_due
    }

    fn tell(&mut self, standing: Standing) {
        let Standing { waits, room } = standing;
        let _printed = eprintln!(self.rt; "imem: {waits} elements wait, room for {room}");
    }
}

impl<R: Eprint + AllocGlobal> Teller for Watch<'_, R> {
    ghost use Rattle.std.specs.Prelude.{None};

    ghost told = { λ _. None };

    fn tell_earlier(&mut self, answer: EarlierAnswer) {
        let EarlierAnswer {
            element,
            number,
            entry,
        } = answer;
        let waited = Waited {
            element,
            number,
            entry,
        };
        print_confirmed(self.rt, waited)
    }
}
