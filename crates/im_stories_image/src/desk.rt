//! What is in memory: a disk, and what was made of it or is to be put on it.

use crate::blind::StoryDisk;
use crate::checkpoints::{self, Checkpointed};
use crate::{disks, images, journals, memories};
use im_disk::{Disk, MemDisk};
use im_image::new_image;
use im_journal::Journal;
use im_memory::Memory;
use im_story::{Phrase, Saying, Subject, changes, old_image};
use im_types::layout::Version;
use im_types::{Command, Limits, Refusal};
use std::alloc::Global;

/// What the calls of a story act on.
#[derive(Default, Drop)]
pub struct ImageDesk {
    /// The disk.
    pub disk: Option<StoryDisk>,
    /// The sizes of the image that is on the disk, or is to be.
    pub limits: Option<Limits>,
    /// The journal.
    pub journal: Option<Journal>,
    /// The commands that were last read from it.
    pub commands: Option<Vec<Command>>,
    /// The memory that was made or last read.
    pub memory: Option<Memory>,
    /// A memory with its journal. A checkpoint puts them on the disk.
    pub kept: Option<Checkpointed>,
}

/// Makes a disk of this length. It has these bytes as far as they go, and then zeros.
pub fn disk_of(alloc: Global, bytes: &[u8], length: usize) -> Result<MemDisk, Refusal> {
    let mut disk = MemDisk::new(alloc, length)?;
    disk.write_at(0, &bytes[..length.min(bytes.len())])?;
    Ok(disk)
}

impl ImageDesk {
    /// Takes the disk, without its fuse.
    pub fn take(&mut self) -> Option<MemDisk> {
        Some(self.disk.take()?.into_inner().into_inner())
    }

    /// Puts a disk of this length in place of the one that is there, with these bytes. Tells how long it is.
    pub fn lay(&mut self, alloc: Global, bytes: &[u8], length: usize, said: &mut Saying) {
        said.result(disk_of(alloc, bytes, length), |disk, said| {
            self.disk = Some(StoryDisk::steady(disk));
            write!(said, "{length} bytes")
        })
    }

    // Makes a call while other bytes stand in their places: `with AT:BYTE .. CALL`.
    fn tell_with(&mut self, call: &Phrase, said: &mut Saying) {
        let others = call.rest(1).iter().position(|word| !word.contains(':'));
        let count = others.unwrap_or(0).saturating_add(1);
        let words = call.words().get(1..count).unwrap_or(&[]);
        let (Some(changes), Some(old)) = (changes(call.alloc(), words), self.take()) else {
            return said.fail("no changes, or no disk");
        };
        let Ok(disk) = disk_of(call.alloc(), old.bytes(), old.bytes().len()) else {
            return said.fail("no memory is left");
        };
        let mut disk = StoryDisk::steady(disk);
        for (at, byte) in &changes {
            said.so(disk.write_at(*at, &[*byte]).is_ok(), "");
        }
        self.disk = Some(disk);
        self.tell(&Phrase::of(call.alloc(), call.rest(count)), said);
        self.disk = Some(StoryDisk::steady(old));
    }

    // Makes what has these sizes, or tells the layout of an image that has them.
    fn make_sized(&mut self, limits: Limits, call: &Phrase, said: &mut Saying) {
        let alloc = call.alloc();
        self.limits = Some(limits);
        match call.form() {
            "journal _ _ _" => {
                self.journal = Some(Journal::fresh(limits));
                said.text("fresh")
            }
            "memory _ _ _" => {
                self.memory = Memory::new(alloc, limits).ok();
                said.so(self.memory.is_some(), "empty")
            }
            "checkpoint _ _ _" => {
                self.kept = Checkpointed::new(alloc, limits).ok();
                said.so(self.kept.is_some(), "idle")
            }
            "image _ _ _" => images::lay(self, alloc, new_image(alloc, limits).ok(), said),
            "old image _ _ _" => images::lay(self, alloc, old_image(alloc, limits).ok(), said),
            "layout _ _ _" => images::tell_layout(Version::Two, limits, said),
            "old layout _ _ _" => images::tell_layout(Version::One, limits, said),
            _ => said.fail("that is no call"),
        }
    }

    // Makes a call of the disk or of what was made of it.
    fn tell(&mut self, call: &Phrase, said: &mut Saying) {
        let is_made = disks::tell(self, call, said)
            || checkpoints::tell(self, call, said)
            || journals::tell(self, call, said)
            || images::tell(self, call, said)
            || memories::tell(self, call, said);
        match call.limits(0) {
            _ if is_made => {}
            Some(limits) => self.make_sized(limits, call, said),
            None => said.fail("that is no call"),
        }
    }
}

impl Subject for ImageDesk {
    fn begin(&mut self) {
        *self = ImageDesk::default();
    }

    fn make(&mut self, call: &Phrase, said: &mut Saying) {
        match call.word(0) {
            "with" => self.tell_with(call, said),
            _ => self.tell(call, said),
        }
    }
}
