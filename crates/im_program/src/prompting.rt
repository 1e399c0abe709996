//! What a dialogue prints on standard error beside its answers: the prompt at a terminal, and its log.
ghost use Rattle.std.specs.Prelude.{◌≡◌};

use crate::log::DialogueLog;
use im_dialogue::read_asked;
use im_listening::Ear;
use im_words::Work;
use std::alloc::Global;
use std::io::{self, Eprint, Read};
use std::time::Clock;

/// A reader at a terminal. Before each read a person is shown a prompt, and is told which word helps at the first line
/// that asks for nothing. If nobody is there, it only reads. A log tells how many lines were read, if it was asked for.
/// Its bytes are those of the reader below.
#[derive(Drop)]
pub struct Prompter<'a, R, I: Drop> {
    rt: &'a R,
    alloc: Global,
    input: I,
    // Whether a person is there.
    is_watched: bool,
    // Whether the person was told which word helps.
    was_told: bool,
    log: DialogueLog<'a>,
}

// The first line of a text, without its line feed.
fn first_line(text: &[u8]) -> &[u8] {
    match text.iter().position(|byte| *byte == b'\n') {
        Some(at) => &text[..at],
        None => text,
    }
}

// Whether a line asks for something, as far as there is memory to tell.
fn asks(alloc: Global, line: &[u8]) -> bool {
    match read_asked(alloc, line) {
        Ok(None) => false,
        Ok(Some(_)) | Err(_) => true,
    }
}

impl<'a, R: Eprint + AllocGlobal + Clock, I: Read + Drop> Prompter<'a, R, I> {
    ghost use Rattle.im_program.specs.Prompting.{prompted};

    /// Makes a reader that shows its prompt if `is_watched`, and keeps a log if the work asks for one.
    pub fn new(rt: &'a R, input: I, is_watched: bool, work: &Work<&'a str>) -> Prompter<'a, R, I>
        ensures { prompted result ≡ input }
    {
        Prompter {
            rt,
            alloc: rt.alloc(),
            input,
            is_watched,
            was_told: false,
            log: DialogueLog::new(work),
        }
    }

    /// Tells that the dialogue has ended, if a log is kept.
    pub fn tell_end(&self) {
        self.log.tell_end(self.rt)
    }

    // Tells what the log has to tell, and shows the prompt.
    fn show_prompt(&mut self)
        ensures { prompted self.new ≡ prompted self.old }
    {
        self.log.tell_minute(self.rt);
        if self.is_watched {
            let _printed = self.rt.eprint("> ");
        }
    }

    // Looks at what was read. If a person typed it, the end of the input ends the prompt's line. A line that asks for
    // nothing is the occasion to tell which word helps, once.
    fn look_at(&mut self, typed: &[u8])
        ensures { prompted self.new ≡ prompted self.old }
    {
        self.log.count(typed);
        if !self.is_watched {
            return;
        }
        if typed.is_empty() {
            let _printed = self.rt.eprintln("");
        } else if !self.was_told && !asks(self.alloc, first_line(typed)) {
            self.was_told = true;
            let _printed = self.rt.eprintln("imem: help tells which lines there are");
        }
    }
}

impl<R: Eprint + AllocGlobal + Clock, I: Read + Drop> Read for Prompter<'_, R, I> {
    ghost use Rattle.im_program.specs.Prompting.{prompted};

    ghost remaining = { λ prompter. I.remaining (prompted prompter) };

    fn read(&mut self, buf: &mut [u8]) -> io::Result<usize> {
        self.show_prompt();
        match self.input.read(buf) {
            Ok(count) => {
                self.look_at(&buf[..count]);
                Ok(count)
            }
            Err(error) => Err(error),
        }
    }
}

impl<R: Eprint + AllocGlobal + Clock, I: Ear + Drop> Ear for Prompter<'_, R, I> {
    fn is_quiet(&mut self) -> bool {
        self.input.is_quiet()
    }
}
