//! Stories of an image: the disk under it and its crashes, the journal in it, its headers and pages, and the turns of a
//! checkpoint. Each file of them begins with its words.
#![tactic(auto)]

mod blind;
mod checkpoints;
mod desk;
mod disks;
mod files;
mod images;
mod journals;
mod memories;

use crate::desk::ImageDesk;
use crate::files::OpenFile;
use im_story::{Phrase, Saying, Subject, tell_line, walk_file};

// A disk in memory with what was made of it, a file of the folder in which the program runs, and the calls so far.
#[derive(Drop)]
struct ImageScene<'r> {
    rt: &'r HostRuntime,
    file: Option<OpenFile>,
    desk: ImageDesk,
    told: Saying,
}

impl<'r> ImageScene<'r> {
    fn new(rt: &'r HostRuntime) -> ImageScene<'r> {
        ImageScene {
            rt,
            file: None,
            desk: ImageDesk::default(),
            told: Saying::new(rt.alloc()),
        }
    }

    // Makes the same calls on another disk, and this call after a crash of it: `if KIND CALL`.
    fn tell_after(&self, call: &Phrase, said: &mut Saying) {
        let alloc = call.alloc();
        let (mut desk, mut crashed) = (ImageDesk::default(), Saying::new(alloc));
        for line in self.told.said().lines() {
            tell_line(line, &mut desk, &mut Saying::new(alloc));
        }
        desk.make(&Phrase::of(alloc, &["crash", call.word(1)]), &mut crashed);
        said.so(!crashed.is_wrong() && !self.told.is_wrong(), "");
        desk.make(&Phrase::of(alloc, call.rest(2)), said)
    }
}

impl<'r> Subject for ImageScene<'r> {
    fn begin(&mut self) {
        *self = ImageScene::new(self.rt);
    }

    fn make(&mut self, call: &Phrase, said: &mut Saying) {
        if call.word(0) == "if" {
            return self.tell_after(call, said);
        }
        if !files::tell(self, call, said) {
            self.told.words(call.words());
            self.told.text("\n");
            self.desk.make(call, said)
        }
    }
}

/// Walks the stories of a file. Returns whether nothing was answered otherwise.
pub fn walk(rt: &HostRuntime, file: &str, said: &mut Saying) -> bool {
    walk_file(rt, file, &mut ImageScene::new(rt), said)
}
