//! Stories of the program: scripts, what is printed when they are served on an image, dialogues, reports of an image,
//! command lines, and work on files.
#![tactic(auto)]

mod command_lines;
mod dialogues;
mod files;
mod images;
mod printed;
mod reasons;
mod scripts;
mod serving;
mod spelling;
mod work;
mod writers;

use im_disk::Mode;
use im_program::Descriptors;
use im_script::Said;
use im_story::{Phrase, Printout, Saying, Subject, walk_file};
use im_story_disk::StoryFile;
use std::{fs, mem};
pub use work::do_work;
use writers::ObserverNotes;

/// What a story works with: a script, an image in memory, what was last printed, and the folder's files.
#[derive(Drop)]
struct ProgramDesk<'a> {
    /// The folder's files, and standard output.
    rt: &'a HostRuntime,
    /// What occupies the numbers of the standard streams.
    held: &'a Descriptors,
    /// The image in memory.
    place: StoryFile,
    /// The text that is put together.
    text: Vec<u8>,
    /// The text that was last read as a script.
    read: Vec<u8>,
    /// What its lines say.
    lines: Vec<Said>,
    /// The bases of the setup's blocks.
    bases: Vec<u32>,
    /// Why a text or a command line was last refused.
    fault: Saying,
    /// What was last printed.
    out: Printout,
    /// What was told besides that.
    notes: ObserverNotes,
}

impl<'a> ProgramDesk<'a> {
    fn new(rt: &'a HostRuntime, held: &'a Descriptors) -> ProgramDesk<'a> {
        let alloc = rt.alloc();
        ProgramDesk {
            rt,
            held,
            place: StoryFile::new(alloc),
            text: Vec::new(alloc),
            read: Vec::new(alloc),
            lines: Vec::new(alloc),
            bases: Vec::new(alloc),
            fault: Saying::new(alloc),
            out: Printout::new(alloc),
            notes: ObserverNotes::new(alloc),
        }
    }

    // Takes the text that was put together. A new one begins.
    fn take_text(&mut self) -> Vec<u8> {
        mem::replace(&mut self.text, Vec::new(self.rt.alloc()))
    }

    // Returns how many calls an opening of the image makes.
    fn opening_calls(&mut self) -> u64 {
        let _count = self.place.found(None);
        self.place.calls
    }

    // Begins a new text of what is printed, of so many bytes at most, and of what is told besides.
    fn print(&mut self, room: usize) {
        self.out = Printout::with_room(self.rt.alloc(), room);
        self.notes = ObserverNotes::new(self.rt.alloc());
    }

    // Does the same, as a call's words tell: the writer takes `_ bytes`. The disk passes `_ calls` behind those of an
    // opening, or all `but for call _`.
    fn prepare(&mut self, call: &Phrase, opening: u64) {
        let passes = opening.saturating_add(call.number(0));
        self.print(usize::MAX);
        for word in call.words() {
            match *word {
                "bytes" => self.print(call.place(0)),
                "calls" => self.place.fuse = (passes, Mode::Stop),
                "call" => self.place.fuse = (passes.saturating_sub(1), Mode::Once),
                _ => {}
            }
        }
    }
}

impl<'a> Subject for ProgramDesk<'a> {
    fn begin(&mut self) {
        *self = ProgramDesk::new(self.rt, self.held);
    }

    fn make(&mut self, call: &Phrase, said: &mut Saying) {
        match call.word(0) {
            "script" | "repeat" | "numbered" => scripts::put(self, call, said),
            "read" => scripts::read(self, call, said),
            "blocks" | "parts" => scripts::add_lines(self, call, said),
            "bases" => scripts::set_bases(self, call, said),
            "request" | "address" | "operation" => scripts::add_request(self, call, said),
            "u32" => scripts::read_number(call, said),
            "fault" => said.text(self.fault.said()),
            "format" | "count" => images::open(&mut self.place, call, said),
            "write" => images::write(&mut self.place, call, said),
            "bytes" => said.part(self.place.bytes(), call.place(0), call.place(1), usize::MAX),
            "serve" => serving::serve(self, call, said),
            "stat" | "inspect" => serving::look(self, call, said),
            "talk" => dialogues::talk(self, call, said),
            "printed" | "told" => printed::tell(self, call, said),
            "progress" => printed::add_progress(self.notes.progress, said),
            "run" => files::run(self, call, said),
            "try" => files::attempt(self, call, said),
            "save" | "keep" => files::write(self, call, said),
            "file" | "load" => files::read(self, call, said),
            "remove" => said.so(fs::remove_file(self.rt, call.word(1)).is_ok(), "removed"),
            "imem" => command_lines::read(self, call, said),
            "says" => command_lines::find(self, call, said),
            "reason" | "status" => reasons::tell(call, said),
            "refuse" => reasons::refuse_memory(self, said),
            _ => {
                let is_known = self.place.tell(call, said);
                said.so(is_known, "")
            }
        }
    }
}

/// Walks the stories of a file. Returns whether nothing was answered otherwise.
pub fn walk(rt: &HostRuntime, held: &Descriptors, file: &str, said: &mut Saying) -> bool {
    walk_file(rt, file, &mut ProgramDesk::new(rt, held), said)
}
