//! What an image in the hands of a caller shows.
ghost use Rattle.std.specs.Prelude.{◌≡◌, true, false, Err};
ghost use Rattle.im_types.specs.Types.{waiters_at, kept_for, ask, bounds};

use crate::image::Image;
use im_memory::{Memory, Waiters};
use im_types::{Entry, Kept, Refusal};

impl Image {
    /// Returns the entry under an element's number, like [`Engine::collect`]. Returns `Device` if a step was lost.
    pub fn collect(&self, element: u16, number: u64) -> Result<Entry, Refusal>
        ensures lost { self.now.lost ≡ true → result ≡ Err Refusal.Device }
        ensures answer { self.now.lost ≡ false
            → result ≡ ask self.now.engine.memory.windows (record { element = element; number = number }) }
    {
        match self.lost {
            true => Err(Refusal::Device),
            false => self.engine.collect(element, number),
        }
    }

    /// Returns what is kept under an element's number, if anything is: the operation and its entry.
    pub fn kept(&self, element: u16, number: u64) -> Option<Kept>
        ensures { result ≡ kept_for self.now.engine.memory.windows (record { element = element; number = number }) }
    {
        self.engine.memory().kept(element, number)
    }

    /// Returns the requests that wait at a cell, in order of arrival. There are none if the address is in no block.
    pub fn waiters(&self, a: u32) -> Waiters<'_>
        ensures { result ≡ waiters_at self.now.engine.memory.cells a }
    {
        self.engine.memory().waiters(a)
    }

    /// Returns the bounds of an element's window, as [`Engine::window`] does. Returns `Device` if a step was lost.
    pub fn window(&self, element: u16) -> Result<(u64, u64), Refusal>
        ensures lost { self.now.lost ≡ true → result ≡ Err Refusal.Device }
        ensures answer { self.now.lost ≡ false → result ≡ bounds self.now.engine.memory.windows element }
    {
        match self.lost {
            true => Err(Refusal::Device),
            false => self.engine.window(element),
        }
    }

    /// Returns whether a step was lost, here or at the caller.
    pub fn is_lost(&self) -> bool
        ensures { result ≡ self.now.lost }
    {
        self.lost
    }

    /// Returns the memory.
    pub fn memory(&self) -> &Memory
        ensures { result.now.contents ≡ self.now.engine.memory }
    {
        self.engine.memory()
    }

    /// Returns how many more commands can be accepted.
    pub fn room(&self) -> u32
        ensures { result ≡ self.now.engine.room }
    {
        self.engine.room()
    }

    /// Returns how many commands have been accepted since the image was formatted.
    pub fn count(&self) -> u64
        ensures { result ≡ self.now.engine.count }
    {
        self.engine.count()
    }
}
