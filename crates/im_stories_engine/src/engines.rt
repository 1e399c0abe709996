//! What a story is about.

use im_session::{Answer, Event};
use im_story_disk::StoryFile;
use im_types::{Command, Limits, Refusal, Served};
use std::alloc::Global;

/// The commands of a story since its image was formatted.
#[derive(Drop)]
pub struct StoryScript {
    /// The sizes of the memory and of its journal.
    pub limits: Limits,
    /// The commands that were accepted, in order.
    pub commands: Vec<Command>,
    /// The first answer to each.
    pub answers: Vec<Served>,
    // How many commands the engine had at the last one.
    count: u64,
}

impl StoryScript {
    /// Makes a script with no command yet.
    pub fn none(alloc: Global, limits: Limits) -> StoryScript {
        StoryScript {
            limits,
            commands: Vec::new(alloc),
            answers: Vec::new(alloc),
            count: 0,
        }
    }

    /// Notes a command, its answer, and the count after it, unless the answer is about the disk or the journal. Returns
    /// whether there was memory for it.
    pub fn note(&mut self, command: Command, answer: Served, count: u64) -> bool {
        if let Served::Refused(Refusal::Device | Refusal::Failed | Refusal::JournalFull) = answer {
            return true;
        }
        let is_new = count > self.count;
        self.count = count;
        !is_new || self.commands.push(command).is_ok() && self.answers.push(answer).is_ok()
    }

    /// Returns how many commands were accepted.
    pub fn len(&self) -> u64 {
        self.commands.len() as u64
    }
}

/// An engine and its disk, and what a story has told of them.
pub struct Engines {
    /// The engine, or the file that it left.
    pub file: StoryFile,
    /// The commands that were told of the image.
    pub script: Option<StoryScript>,
    /// What the next run does.
    pub events: Vec<Event>,
    /// The answers of the last run.
    pub answers: Vec<Answer>,
    /// The pages of a memory.
    pub pages: Vec<u8>,
}

// By one call, wherever its owner may end.
impl Drop for Engines {
    fn drop(self) {
        let Engines {
            file: _,
            script: _,
            events: _,
            answers: _,
            pages: _,
        } = self;
    }
}

impl Engines {
    /// Starts with nothing.
    pub fn none(alloc: Global) -> Engines {
        Engines {
            file: StoryFile::new(alloc),
            script: None,
            events: Vec::new(alloc),
            answers: Vec::new(alloc),
            pages: Vec::new(alloc),
        }
    }
}
