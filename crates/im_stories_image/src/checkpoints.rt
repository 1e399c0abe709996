//! Calls on a memory with its journal and its checkpoint.
ghost use Rattle.std.specs.Prelude.{◌≡◌};

use crate::blind::StoryDisk;
use crate::desk::ImageDesk;
use im_checkpoint::{Checkpoint, TurnDone};
use im_image::{Header, VERSION};
use im_journal::Journal;
use im_memory::Memory;
use im_story::{Phrase, Saying, command};
use im_types::{Command, Limits, Outcome, Refusal};
use std::alloc::Global;
use std::marker::Model;

/// A memory with its journal and its checkpoint, of one image.
#[derive(Drop)]
pub struct Checkpointed {
    memory: Memory,
    journal: Journal,
    checkpoint: Checkpoint,
}

impl Model for Checkpointed {
    ghost use Rattle.{im_types.specs.Types.Contents, im_checkpoint.specs.Keeping.Fits};

    ghost Value = { Contents };

    ghost view = { λ k. k.memory.contents };

    ghost invariant = { λ k. Fits k.checkpoint.state k.memory.contents k.journal };
}

impl Checkpointed {
    /// Makes an empty memory, a new journal and no checkpoint, of an image of generation 1.
    pub fn new(alloc: Global, limits: Limits) -> Result<Checkpointed, Refusal> {
        let header = Header {
            version: VERSION,
            area: 0,
            generation: 1,
            count: 0,
            limits,
        };
        Ok(Checkpointed {
            memory: Memory::new(alloc, limits)?,
            journal: Journal::fresh(limits),
            checkpoint: Checkpoint::idle(alloc, &header, true)?,
        })
    }

    // Puts a command on the disk. Then it acts.
    fn serve(&mut self, disk: &mut StoryDisk, command: &Command) -> Result<Outcome, Refusal> {
        self.journal.append(disk, command)?;
        self.checkpoint.before(&self.memory, command);
        self.memory.step(command)
    }

    fn turn(&mut self, disk: &mut StoryDisk) -> Result<TurnDone, Refusal> {
        self.checkpoint.turn(disk, &self.memory, &mut self.journal)
    }
}

// Tells what a turn did.
fn add_turn(said: &mut Saying, turn: Result<TurnDone, Refusal>) {
    match turn {
        Ok(TurnDone::Idle) => said.text("idle"),
        Ok(TurnDone::Began) => said.text("began"),
        Ok(TurnDone::Page(page)) => write!(said, "page {page}"),
        Ok(TurnDone::Synced) => said.text("synced"),
        Ok(TurnDone::InForce) => said.text("in force"),
        Ok(TurnDone::Swept) => said.text("swept"),
        Err(refusal) => said.refusal(refusal),
    }
}

/// Makes a call on the checkpoint. Returns whether it is one.
pub fn tell(here: &mut ImageDesk, call: &Phrase, said: &mut Saying) -> bool {
    let command = command(call.rest(1));
    match (call.word(0), command, &mut here.disk, &mut here.kept) {
        ("room", _, _, Some(kept)) => said.number(kept.journal.room()),
        ("turn", _, Some(disk), Some(kept)) => add_turn(said, kept.turn(disk)),
        ("serve", Some(command), Some(disk), Some(kept)) => {
            said.outcome(kept.serve(disk, &command))
        }
        _ => return false,
    }
    true
}
