//! Stories of the engine: images that are formatted, served, turned, stopped, crashed, damaged and opened again, and
//! random walks beside the plain memory. `cells.story` begins with their words.
#![tactic(auto)]

mod damage;
mod engines;
mod events;
mod images;
mod known;
mod trials;
mod walks;

use crate::engines::Engines;
use im_story::{Phrase, Saying, Subject, walk_file};

impl Subject for Engines {
    fn begin(&mut self) {
        *self = Engines::none(self.file.alloc);
    }

    fn make(&mut self, call: &Phrase, said: &mut Saying) {
        let is_made = images::tell(self, call, said)
            || damage::tell(self, call, said)
            || walks::tell(call, said)
            || self.file.tell(call, said);
        match call.word(0) {
            _ if is_made => {}
            "in" => trials::tell(self, call, said),
            _ => events::tell(self, call, said),
        }
    }
}

/// Walks the stories of a file. Returns whether nothing was answered otherwise.
pub fn walk(rt: &HostRuntime, file: &str, said: &mut Saying) -> bool {
    walk_file(rt, file, &mut Engines::none(rt.alloc()), said)
}
