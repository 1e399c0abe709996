//! A memory, and one command on it.

use crate::acts::act;
use crate::cells::{PlainSlot, presence_of, slot_at};
use crate::queue::{Deferred, count_at, nth_at};
use crate::windows::{
    KeptWindow, ask, bounds, confirm, judge, judge_confirm, kept_for, note, resume,
};
use im_types::{
    Block, Cell, Command, Entry, Judged, Kept, Limits, Outcome, Refusal, Request, WINDOW, Waiter,
};
use std::alloc::{AllocError, Global};

/// A plain memory: slow, without links and without bytes.
#[derive(Drop)]
pub struct PlainMemory {
    slots: Vec<Option<PlainSlot>>,
    queue: Vec<Deferred>,
    windows: Vec<KeptWindow>,
}

// Serves a new request: does its operation, keeps its entry, and answers the requests that it resumes.
fn serve(
    slots: &mut [Option<PlainSlot>],
    queue: &mut Vec<Deferred>,
    windows: &mut [KeptWindow],
    request: &Request,
) -> Entry {
    let who = Waiter {
        element: request.element,
        number: request.number,
    };
    let acted = act(slots, queue, who, request.op);
    note(windows, request, acted.entry);
    resume(windows, queue, acted.address, acted.count, acted.value);
    acted.entry
}

impl PlainMemory {
    /// Makes a memory of these sizes, with no block and no entry. It takes all its memory here, and returns `NoMemory`
    /// if that is refused.
    pub fn new(alloc: Global, limits: Limits) -> Result<Self, Refusal> {
        match PlainMemory::make(alloc, limits) {
            Ok(memory) => Ok(memory),
            Err(_) => Err(Refusal::NoMemory),
        }
    }

    fn make(alloc: Global, limits: Limits) -> Result<Self, AllocError> {
        let slots = no_slots(alloc, limits.cells)?;
        let windows = new_windows(alloc, limits.elements)?;
        let room = WINDOW as usize * limits.elements as usize;
        let queue = Vec::with_capacity(alloc, room)?;
        Ok(PlainMemory {
            slots,
            queue,
            windows,
        })
    }

    /// Serves one command, and returns its outcome or its refusal. A refusal changes nothing. The call takes no
    /// memory.
    ///
    /// A command of an element that doesn't exist is refused with `NoElement`. A request is refused with `Forgotten`
    /// below its window, and with `Mismatch` under a number that is kept for another operation. It is refused with
    /// `Gap` past the next number and past the last number of all, and with `WindowFull` while 64 entries are kept. A
    /// confirmation is refused with `Gap` past the next number, and with `NotAnswered` if an entry that it would drop
    /// still waits.
    pub fn step(&mut self, command: &Command) -> Result<Outcome, Refusal> {
        match command {
            Command::Request(request) => self.request(request),
            Command::Confirm { element, upto } => self.confirm(*element, *upto),
        }
    }

    fn request(&mut self, request: &Request) -> Result<Outcome, Refusal> {
        match judge(self.windows.as_slice(), request) {
            Err(refusal) => Err(refusal),
            Ok(Judged::Repeat(entry)) => Ok(Outcome::Entry(entry)),
            Ok(Judged::Fresh) => {
                let entry = serve(
                    self.slots.as_mut_slice(),
                    &mut self.queue,
                    self.windows.as_mut_slice(),
                    request,
                );
                Ok(Outcome::Entry(entry))
            }
        }
    }

    fn confirm(&mut self, element: u16, upto: u64) -> Result<Outcome, Refusal> {
        match confirm(self.windows.as_mut_slice(), element, upto) {
            Ok(()) => Ok(Outcome::Confirmed),
            Err(refusal) => Err(refusal),
        }
    }

    /// Returns whether [`PlainMemory::step`] would accept this command, or the refusal that it would return. It accepts
    /// a command if and only if the command changes the memory.
    pub fn judge(&self, command: &Command) -> Result<bool, Refusal> {
        match command {
            Command::Request(request) => match judge(self.windows.as_slice(), request) {
                Ok(Judged::Fresh) => Ok(true),
                Ok(Judged::Repeat(_)) => Ok(false),
                Err(refusal) => Err(refusal),
            },
            Command::Confirm { element, upto } => {
                judge_confirm(self.windows.as_slice(), *element, *upto)
            }
        }
    }

    /// Returns the entry that is kept under an element's number. Returns `NoElement` if there is no such element,
    /// `Forgotten` below its window, and `Gap` if the number isn't used yet.
    pub fn collect(&self, element: u16, number: u64) -> Result<Entry, Refusal> {
        ask(self.windows.as_slice(), Waiter { element, number })
    }

    /// Returns the base of an element's window, and the number of its next new request. The entries are numbered from
    /// the base on. Returns `NoElement` if there is no such element.
    pub fn window(&self, element: u16) -> Result<(u64, u64), Refusal> {
        bounds(self.windows.as_slice(), element)
    }

    /// Returns the number of cells, at most 1,048,576.
    pub fn cells(&self) -> u32 {
        u32::try_from(self.slots.len()).unwrap_or(u32::MAX)
    }

    /// Returns the number of elements, at most 64.
    pub fn elements(&self) -> u16 {
        u16::try_from(self.windows.len()).unwrap_or(u16::MAX)
    }

    /// Returns the cell at an address, or `None` if the address lies in no block.
    pub fn cell(&self, a: u32) -> Option<Cell> {
        match slot_at(self.slots.as_slice(), a) {
            Some(slot) => Some(presence_of(slot.state, count_at(self.queue.as_slice(), a))),
            None => None,
        }
    }

    /// Returns the block that an address lies in, or `None` if it lies in none.
    pub fn block(&self, a: u32) -> Option<Block> {
        match slot_at(self.slots.as_slice(), a) {
            Some(slot) => Some(slot.block),
            None => None,
        }
    }

    /// Returns the request at this place among those that wait at a cell, or `None` past the last one. Places count
    /// from 0, in the order of arrival.
    pub fn waiter(&self, a: u32, place: usize) -> Option<Waiter> {
        nth_at(self.queue.as_slice(), a, place)
    }

    /// Returns the operation and the entry that are kept under an element's number, or `None` if there are none.
    pub fn kept(&self, element: u16, number: u64) -> Option<Kept> {
        kept_for(self.windows.as_slice(), Waiter { element, number })
    }
}

// Makes the given number of slots, all in no block.
fn no_slots(alloc: Global, cells: u32) -> Result<Vec<Option<PlainSlot>>, AllocError> {
    let mut slots = Vec::with_capacity(alloc, cells as usize)?;
    for _ in 0..cells {
        slots.push(None)?;
    }
    Ok(slots)
}

// Makes the given number of windows, all with no entry.
fn new_windows(alloc: Global, elements: u16) -> Result<Vec<KeptWindow>, AllocError> {
    let mut windows = Vec::with_capacity(alloc, elements as usize)?;
    for _ in 0..elements {
        windows.push(KeptWindow::new(alloc)?)?;
    }
    Ok(windows)
}
