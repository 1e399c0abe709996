//! Stories of the pages of an image: how the records of cells, waiter nodes and sessions are spelled and read, and
//! which memory they show. Each module lists its own words.
//!
//! Bytes in a row are written with two digits of base 16 each, and `00*14` is fourteen of them. All other numbers are
//! decimal, and `none` is a link to nothing.
#![tactic(auto)]

mod pages;
mod read;
mod records;
mod refusals;
mod set;
mod shown;
mod spelled;

use crate::pages::Pages;
use crate::refusals::tell_refusal;
use im_story::{Phrase, Saying, Subject, walk_file};

// The fewest equal bytes that are told as one.
const RUN: usize = 3;

impl Subject for Pages {
    fn begin(&mut self) {
        *self = Pages::new(self.alloc);
    }

    fn make(&mut self, call: &Phrase, said: &mut Saying) {
        match (call.word(0), call.word(1)) {
            ("refusal", name) => tell_refusal(name, said),
            ("limits" | "version", _) => self.set_sizes(call, said),
            ("cells" | "nodes" | "windows", _) => self.make_row(call, said),
            ("cell" | "node" | "window" | "keep", _) => self.set(call, said),
            ("blocks" | "lists" | "waiting" | "agree" | "contents", _) => self.show(call, said),
            ("spell", "session") => self.spell_session(call, said),
            ("spell", _) => self.spell(call, said),
            ("pages", _) => self.spell_pages(said),
            ("bytes", _) => said.part(&self.bytes, call.place(0), call.place(1), RUN),
            ("read", _) => self.read(call, said),
            ("short" | "byte", _) => self.read_changed(call, said),
            ("kept", _) => self.tell_kept(call, said),
            ("area", _) => self.tell_area(call, said),
            _ => said.fail("no such call"),
        }
    }
}

/// Walks the stories of a file. Returns whether nothing was answered otherwise.
pub fn walk(rt: &HostRuntime, file: &str, said: &mut Saying) -> bool {
    walk_file(rt, file, &mut Pages::new(rt.alloc()), said)
}
