//! A file in memory, or an engine on it.

use im_disk::{Crash, Disk, FuseDisk, MemDisk, Mode};
use im_engine::Engine;
use im_story::{Saying, old_image};
use im_types::layout::image_length;
use im_types::{LAST, Limits, Refusal};
use std::alloc::Global;

/// How a disk fails that never does.
pub const STEADY: (u64, Mode) = (LAST, Mode::Stop);

/// An engine, or the file of one that was closed or couldn't be made, or none.
pub struct StoryFile {
    /// The allocator of what is made.
    pub alloc: Global,
    /// The engine, unless it is closed.
    pub engine: Option<Engine<FuseDisk>>,
    disk: Option<MemDisk>,
    marked: Vec<u8>,
    /// How many calls were made of the file when it was last used.
    pub calls: u64,
    /// How many calls it passes when it is used next, and how it fails then.
    pub fuse: (u64, Mode),
}

// By one call, wherever its owner may end.
impl Drop for StoryFile {
    fn drop(self) {
        let StoryFile {
            alloc: _,
            engine: _,
            disk: _,
            marked: _,
            calls: _,
            fuse: _,
        } = self;
    }
}

impl StoryFile {
    /// Starts with no file.
    pub fn new(alloc: Global) -> StoryFile {
        StoryFile {
            alloc,
            engine: None,
            disk: None,
            marked: Vec::new(alloc),
            calls: 0,
            fuse: STEADY,
        }
    }

    /// Returns the file's bytes, or none if there is no file that is closed.
    pub fn bytes(&self) -> &[u8] {
        match &self.disk {
            Some(disk) => disk.bytes(),
            None => &[],
        }
    }

    /// Puts bytes at a place, as whoever damages a file does, and syncs them. Returns whether they are there.
    pub fn put(&mut self, at: usize, bytes: &[u8]) -> bool {
        let Some(disk) = &mut self.disk else {
            return false;
        };
        match disk.bytes().len().checked_sub(at) {
            Some(room) if bytes.len() <= room => {
                disk.write_at(at, bytes).is_ok() && disk.sync().is_ok()
            }
            _ => false,
        }
    }

    /// Puts each byte at its place. Returns whether all are there.
    pub fn put_each(&mut self, changes: &[(usize, u8)]) -> bool {
        changes.iter().all(|(at, byte)| self.put(*at, &[*byte]))
    }

    /// Closes the engine, and makes a file of zeros in place of its own.
    pub fn blank(&mut self, length: usize) -> Result<(), Refusal> {
        self.close();
        self.calls = 0;
        self.disk = None;
        self.disk = Some(MemDisk::new(self.alloc, length)?);
        Ok(())
    }

    /// Does the same. The file has these bytes as far as they go, then zeros; all of them are synced. Returns whether
    /// it is there.
    pub fn lay(&mut self, bytes: &[u8], length: usize) -> bool {
        match bytes.get(..length.min(bytes.len())) {
            Some(part) => self.blank(length).is_ok() && self.put(0, part),
            None => false,
        }
    }

    /// Cuts the file there, or adds zeros. Returns whether there is a file.
    pub fn cut(&mut self, length: usize) -> bool {
        match self.disk.take() {
            Some(disk) => self.lay(disk.bytes(), length),
            None => false,
        }
    }

    /// Returns a copy of the file, all of it synced.
    pub fn copy(&self) -> StoryFile {
        let mut copy = StoryFile::new(self.alloc);
        let _is_laid = copy.lay(self.bytes(), self.bytes().len());
        copy
    }

    /// Marks the bytes. Returns whether there is memory for that.
    pub fn mark(&mut self) -> bool {
        let bytes = self.bytes().to_vec(self.alloc);
        bytes.map(|bytes| self.marked = bytes).is_ok()
    }

    /// Returns whether the bytes are those that were marked.
    pub fn is_as_marked(&self) -> bool {
        self.bytes() == self.marked.as_slice()
    }

    /// Takes the file, whose calls fail as was told.
    pub fn taken(&mut self) -> Option<FuseDisk> {
        let disk = self.disk.take()?;
        let (passes, mode) = self.fuse;
        self.fuse = STEADY;
        Some(FuseDisk::new(disk, passes, mode))
    }

    /// Keeps this file, with its calls.
    pub fn lay_down(&mut self, disk: FuseDisk) {
        self.calls = disk.calls();
        self.disk = Some(disk.into_inner());
    }

    // Keeps an engine, or the file that it was to be on.
    fn keep(&mut self, made: Result<Engine<FuseDisk>, (Refusal, FuseDisk)>) -> Result<(), Refusal> {
        match made {
            Ok(engine) => {
                self.engine = Some(engine);
                Ok(())
            }
            Err((refusal, disk)) => {
                self.lay_down(disk);
                Err(refusal)
            }
        }
    }

    /// Makes a new image of these sizes in the file, or opens the one that is there. Without a file there is no memory
    /// for it.
    pub fn start(&mut self, new: Option<Limits>) -> Result<(), Refusal> {
        match (self.taken(), new) {
            (Some(disk), Some(limits)) => self.keep(Engine::format(self.alloc, disk, limits)),
            (Some(disk), None) => self.keep(Engine::open(self.alloc, disk)),
            _ => Err(Refusal::NoMemory),
        }
    }

    /// Makes a new image in a new file that fails so. Returns whether it is there.
    pub fn begin(&mut self, limits: Limits, fuse: (u64, Mode)) -> bool {
        let is_laid = self.lay(&[], image_length(limits));
        self.fuse = fuse;
        is_laid && self.start(Some(limits)).is_ok()
    }

    /// Closes the engine, and keeps its file.
    pub fn close(&mut self) {
        if let Some(engine) = self.engine.take() {
            self.lay_down(engine.close())
        }
    }

    /// Does the same as `start`, and closes the engine again. Returns its count and its room.
    pub fn found(&mut self, new: Option<Limits>) -> Result<(u64, u32), Refusal> {
        let made = self.start(new);
        let found = self
            .engine
            .as_ref()
            .map(|engine| (engine.count(), engine.room()));
        self.close();
        made?;
        found.ok_or(Refusal::NoMemory)
    }

    /// Opens the image, and closes it again. Tells its count and its room, or why it is refused.
    pub fn tell_opening(&mut self, said: &mut Saying) {
        said.result(self.found(None), |(count, room), said| {
            write!(said, "count {count} room {room}")
        })
    }

    /// Makes a new file with an image that has no command. Returns whether it is there.
    pub fn renew(&mut self, limits: Limits) -> bool {
        let is_begun = self.begin(limits, STEADY);
        self.close();
        is_begun
    }

    /// Makes a new file with an image of the first version that has no command. Returns whether it is there.
    pub fn renew_old(&mut self, limits: Limits) -> bool {
        let image = old_image(self.alloc, limits);
        image.is_ok_and(|image| self.lay(image.as_slice(), image.len()))
    }

    /// Lets the disk crash. Returns whether there is one, and no engine on it.
    pub fn crash(&mut self, crash: Crash) -> bool {
        self.disk = self.disk.take().map(|disk| disk.crash(crash));
        self.disk.is_some()
    }

    /// Closes the engine, lets its disk crash if a crash is told, and opens what that leaves. Returns whether it opens.
    pub fn reopen(&mut self, crash: Option<Crash>) -> bool {
        self.close();
        if let Some(crash) = crash {
            let _crashed = self.crash(crash);
        }
        self.start(None).is_ok()
    }

    /// Returns how many commands the engine has.
    pub fn count(&self) -> u64 {
        self.engine.as_ref().map_or(0, |engine| engine.count())
    }
}
