//! Stories of an image over a caller's bytes. The caller opens it from the bytes of its file, carries out the steps
//! that each call lists, and may be stopped on the way. Each file of stories begins with their words.
#![tactic(auto)]

mod asking;
mod callers;

use crate::callers::Caller;
use im_listed::Image;
use im_story::{Phrase, Saying, Subject, command, walk_file};
use im_types::Command;

// Serves a command.
fn serve(image: &mut Image, command: Option<Command>, said: &mut Saying) {
    match command {
        Some(command) => said.outcome(image.serve(&command)),
        None => said.fail("that is no call"),
    }
}

// Makes a call of an image.
fn ask(image: &mut Image, call: &Phrase, said: &mut Saying) {
    let (element, number) = (call.element(0), call.number(1));
    match call.form() {
        "steps" => callers::tell_steps(image.steps(), said),
        "turn" => said.result(image.turn(), |_done, said| said.text("turned")),
        "sweep _" => said.result(
            image.sweep(call.address(0)),
            |swept, said| said.number(swept),
        ),
        "collect _._" => said.answer(image.collect(element, number)),
        "window _" => said.window(image.window(element)),
        "room" => said.number(image.room()),
        "count" => said.number(image.count()),
        "lost" => said.number(image.is_lost()),
        "lose" => image.lose(),
        _ => serve(image, command(call.words()), said),
    }
}

impl Subject for Caller {
    fn begin(&mut self) {
        *self = Caller::new(self.alloc);
    }

    fn make(&mut self, call: &Phrase, said: &mut Saying) {
        match call.form() {
            "format _ _ _" => said.done(self.format(call.limits(0)), "formatted"),
            "open" => said.done(self.open(), "opened"),
            "bytes _ _" => said.part(self.file.as_slice(), call.place(0), call.place(1), 8),
            "carry out" => said.number(self.carry_out(usize::MAX)),
            "carry out _" => said.number(self.carry_out(call.place(0))),
            "crash" => said.so(self.crash(), "crashed"),
            _ => match &mut self.image {
                Some(image) => {
                    if !asking::ask(image, call, said) {
                        ask(image, call, said)
                    }
                }
                None => said.fail("no image"),
            },
        }
    }
}

/// Walks the stories of a file. Returns whether nothing was answered otherwise.
pub fn walk(rt: &HostRuntime, file: &str, said: &mut Saying) -> bool {
    walk_file(rt, file, &mut Caller::new(rt.alloc()), said)
}
