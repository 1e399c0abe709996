//! The program's work on files, and the folder's files.

use crate::MigrationDesk;
use crate::moves::report;
use im_program::{AtHand, Console, Terminals, read_words};
use im_stories_program::do_work;
use im_story::{Phrase, Printout, Saying, bytes};
use im_story_disk::StoryFile;
use std::fs;
use std::io::ErrorKind;

// Nobody watches, and nobody is asked.
const NOBODY: Terminals = Terminals {
    output: false,
    input: false,
    errors: false,
};

/// Does the work of a command line. Tells the status.
pub fn run(desk: &mut MigrationDesk, call: &Phrase, said: &mut Saying) {
    let Ok(line) = read_words(call.alloc(), call.rest(1)) else {
        return said.fail("bad words");
    };
    let mut console = Console::new(desk.rt, desk.held, &line, NOBODY);
    let mut nothing = b"".as_slice();
    desk.out = Printout::new(call.alloc());
    let hand = AtHand {
        rt: desk.rt,
        held: desk.held,
        input: &mut nothing,
        observer: &mut console,
    };
    let status = do_work(hand, &line, &mut desk.out);
    desk.told = console.reason();
    write!(said, "{status}")
}

/// Makes a file of these lines. Each line is the words up to a slash.
pub fn save(rt: &HostRuntime, call: &Phrase, said: &mut Saying) {
    let mut text = Saying::new(call.alloc());
    for word in call.rest(2) {
        text.either(*word == "/", "\n", word);
        text.either(*word == "/", "", " ");
    }
    let is_saved = fs::write(rt, call.word(1), text.said()).is_ok();
    said.so(is_saved && !text.is_wrong(), "saved")
}

/// Makes a file in memory of a file of the folder. Tells its length, or that it doesn't exist.
pub fn load(rt: &HostRuntime, name: &str, file: &mut StoryFile, said: &mut Saying) {
    match fs::read(rt, name) {
        Ok(bytes) => {
            said.so(file.lay(bytes.as_slice(), bytes.len()), "");
            write!(said, "{} bytes", bytes.len())
        }
        Err(error) => said.so(error.kind() == ErrorKind::NotFound, "none"),
    }
}

// Makes a file of the folder of a file in memory. Tells its length.
fn keep(rt: &HostRuntime, name: &str, file: &StoryFile, said: &mut Saying) {
    said.so(fs::write(rt, name, file.bytes()).is_ok(), "");
    write!(said, "{} bytes", file.bytes().len())
}

// Puts bytes in their places, and tells them as they stand then.
fn write(file: &mut StoryFile, call: &Phrase, said: &mut Saying) {
    let (at, Some(bytes)) = (call.place(0), bytes(call.alloc(), call.rest(2))) else {
        return said.fail("that is no byte");
    };
    said.so(file.put(at, bytes.as_slice()), "");
    for byte in file.bytes().iter().skip(at).take(bytes.len()) {
        write!(said, "{byte:02x}");
    }
}

/// Makes a call of a file in memory: `old CALL` or `new CALL`. An `old image` is one of the first version.
pub fn tell_of_file(
    rt: &HostRuntime,
    file: &mut StoryFile,
    out: &mut Printout,
    call: &Phrase,
    said: &mut Saying,
) {
    let of_file = Phrase::of(call.alloc(), call.rest(1));
    match call.word(1) {
        "keep" => keep(rt, call.word(2), file, said),
        "load" => load(rt, call.word(2), file, said),
        "write" => write(file, &of_file, said),
        "report" => {
            *out = report(file);
            write!(said, "{} lines", out.text().lines().count())
        }
        _ => {
            let is_made = if call.form() == "old image _ _ _" {
                file.tell(call, said)
            } else {
                file.tell(&of_file, said)
            };
            said.so(is_made, "")
        }
    }
}
