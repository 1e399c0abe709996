//! What a story is about.

use im_listed::{Image, Step};
use im_story::Saying;
use im_types::layout::image_length;
use im_types::{Limits, Refusal};
use std::alloc::Global;

/// A program with an image in its hands, and its file.
pub struct Caller {
    /// The allocator of what is made.
    pub alloc: Global,
    /// The image, if it is open.
    pub image: Option<Image>,
    /// The bytes of the file, as a read gives them.
    pub file: Vec<u8>,
    // Those that were synced.
    synced: Vec<u8>,
}

// By one call, wherever its owner may end.
impl Drop for Caller {
    fn drop(self) {
        let Caller {
            alloc: _,
            image: _,
            file: _,
            synced: _,
        } = self;
    }
}

// Writes bytes at a place of a file. Returns whether they lie in it.
fn put(file: &mut Vec<u8>, at: usize, part: &[u8]) -> bool {
    match file.len().checked_sub(at) {
        Some(room) if part.len() <= room => {
            file[at..at + part.len()].copy_from_slice(part);
            true
        }
        _ => false,
    }
}

// Carries out a step on a file and on what of it was synced. Returns whether it could be.
fn carry_out_one(step: &Step, file: &mut Vec<u8>, synced: &mut Vec<u8>) -> bool {
    match step {
        Step::Write(at, bytes) => put(file, *at, bytes.as_slice()),
        Step::Sync => {
            synced.clear();
            synced.extend_from_slice(file.as_slice()).is_ok()
        }
    }
}

/// Tells steps in their order: the length of a write and its place, or a sync.
pub fn tell_steps(steps: &[Step], said: &mut Saying) {
    for (at, step) in steps.iter().enumerate() {
        said.either(at == 0, "", ", ");
        match step {
            Step::Write(place, bytes) => write!(said, "{} at {place}", bytes.len()),
            Step::Sync => said.text("sync"),
        }
    }
}

impl Caller {
    /// Starts with no file.
    pub fn new(alloc: Global) -> Caller {
        Caller {
            alloc,
            image: None,
            file: Vec::new(alloc),
            synced: Vec::new(alloc),
        }
    }

    /// Makes a new image and a file of its length.
    pub fn format(&mut self, limits: Option<Limits>) -> Result<(), Refusal> {
        let limits = limits.ok_or(Refusal::BadLimits)?;
        let Ok(file) = vec![in self.alloc; 0; image_length(limits)] else {
            return Err(Refusal::NoMemory);
        };
        self.file = file;
        self.image = Some(Image::format(self.alloc, limits)?);
        Ok(())
    }

    /// Opens the image of the file's bytes.
    pub fn open(&mut self) -> Result<(), Refusal> {
        self.image = None;
        let Ok(bytes) = self.file.to_vec(self.alloc) else {
            return Err(Refusal::NoMemory);
        };
        self.image = Some(Image::open(self.alloc, bytes)?);
        Ok(())
    }

    /// Carries out the first steps of the last call, up to `most`, on the file. Returns how many.
    pub fn carry_out(&mut self, most: usize) -> usize {
        let Some(image) = &self.image else {
            return 0;
        };
        for (at, step) in image.steps().iter().take(most).enumerate() {
            if !carry_out_one(step, &mut self.file, &mut self.synced) {
                return at;
            }
        }
        image.steps().len().min(most)
    }

    /// Ends the program and loses what wasn't synced. Returns whether there is memory for what is left.
    pub fn crash(&mut self) -> bool {
        self.image = None;
        self.file.clear();
        self.file.extend_from_slice(self.synced.as_slice()).is_ok()
    }
}
