//! Files, and the program's work on them.

use crate::ProgramDesk;
use crate::work::do_work;
use crate::writers::ObserverNotes;
use im_disk::Unknown;
use im_program::{
    AtHand, Console, Descriptors, Serving, Terminals, format_file, inspect_file, read_words,
    serve_file, status_for,
};
use im_report::View;
use im_story::{Phrase, Printout, Saying};
use im_text::Style;
use im_types::Limits;
use std::fs;
use std::io::ErrorKind;

// Nobody watches, and nobody is asked.
const NOBODY: Terminals = Terminals {
    output: false,
    input: false,
    errors: false,
};

/// Does the work of a command line that takes one thread. Standard input is the text that was put together. Tells the
/// status.
pub fn run(desk: &mut ProgramDesk, call: &Phrase, said: &mut Saying) {
    let Ok(line) = read_words(call.alloc(), call.rest(1)) else {
        return said.fail("bad words");
    };
    let mut console = Console::new(desk.rt, desk.held, &line, NOBODY);
    desk.print(usize::MAX);
    let mut input = desk.text.as_slice();
    let hand = AtHand {
        rt: desk.rt,
        held: desk.held,
        input: &mut input,
        observer: &mut console,
    };
    let status = do_work(hand, &line, &mut desk.out);
    desk.text.clear();
    said.number(status_for(status, line.statuses, console.reason()))
}

// Serves a file's script, tells about an image, or makes one. Returns whether that is done.
fn is_done<'a>(
    rt: &'a HostRuntime,
    held: &'a Descriptors,
    call: &Phrase,
    out: &mut Printout,
    notes: &'a mut ObserverNotes,
) -> bool {
    let mut nothing = b"".as_slice();
    let image = call.word(2);
    let serving = Serving {
        image,
        script: call.word(3),
        once: false,
        strict: false,
        style: Style::Text,
    };
    let hand = AtHand {
        rt,
        held,
        input: &mut nothing,
        observer: notes,
    };
    match (call.word(1), Limits::new(1, 1, 16)) {
        ("serial", _) => serve_file(hand, &serving, out, Unknown).is_ok(),
        ("format", Some(limits)) => format_file(hand, image, limits, false, Unknown).is_ok(),
        _ => inspect_file(hand, image, &View::Stat, out, Unknown).is_ok(),
    }
}

/// Does one of these, and tells whether it is done.
pub fn attempt(desk: &mut ProgramDesk, call: &Phrase, said: &mut Saying) {
    desk.print(usize::MAX);
    let is_done = is_done(desk.rt, desk.held, call, &mut desk.out, &mut desk.notes);
    said.either(is_done, "done", "refused")
}

/// Makes a file of the text that was put together, or of the image in memory. Tells how many bytes there are.
pub fn write(desk: &mut ProgramDesk, call: &Phrase, said: &mut Saying) {
    let is_text = call.word(0) == "save";
    let bytes = if is_text {
        desk.text.as_slice()
    } else {
        desk.place.bytes()
    };
    said.so(fs::write(desk.rt, call.word(1), bytes).is_ok(), "");
    write!(said, "{} bytes", bytes.len());
    if is_text {
        desk.text.clear()
    }
}

/// Tells how long a file is, if it exists. Makes an image in memory of it, if that is asked for.
pub fn read(desk: &mut ProgramDesk, call: &Phrase, said: &mut Saying) {
    match fs::read(desk.rt, call.word(1)) {
        Ok(bytes) => {
            let (bytes, is_loaded) = (bytes.as_slice(), call.word(0) == "load");
            write!(said, "{} bytes", bytes.len());
            said.so(!is_loaded || desk.place.lay(bytes, bytes.len()), "")
        }
        Err(error) => said.so(error.kind() == ErrorKind::NotFound, "none"),
    }
}
