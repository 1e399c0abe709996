//! What an image has of a script already.
//!
//! The n-th request of an element has number n, so an image needs no mark of a script (decision 330).
ghost use Rattle.std.specs.Prelude.{◌≡◌, ℕ, ◌+◌, ◌-◌, true, false, [], IfOk, slice_get, Ok};
ghost use Rattle.std.specs.Option.{option_map_or};
ghost use Rattle.im_types.specs.Types.{next_number, bounds};
ghost use Rattle.im_serial.specs.{Asked.wanted_by, Fitting.base_placed, Fitting.end_behind_base};
ghost use Rattle.im_serial.specs.Had.{first_open, left_of, met, met_all, news, numbers_had, numbers_settled};
ghost use Rattle.im_serial.specs.Had.{still_waits};

use im_memory::Memory;
use im_script::Said;
use im_types::{Entry, Kept};
use std::alloc::{AllocError, Global};

/// The requests of a script that an image has and that weren't met yet, as the script's lines are read.
#[derive(Drop)]
pub struct Past {
    /// How many of each element's requests.
    pub many: Vec<u64>,
    /// Where the next block of the setup begins.
    pub end: u32,
}

// Returns how many requests an element made, by its next number.
fn count_of(memory: &Memory, element: u16) -> u64
    ensures { result ≡ option_map_or (λ w. next_number w - 1) (slice_get memory.now.contents.windows element) 0 }
{
    match memory.window(element) {
        Ok((_, next)) => next.saturating_sub(1),
        Err(_) => 0,
    }
}

// Returns whether an entry waits.
fn still_waits(entry: Entry) -> bool
    ensures { result ≡ still_waits entry }
{
    match entry {
        Entry::Waiting => true,
        Entry::Answered(_reply) => false,
    }
}

// Returns whether what is kept of a request, if anything is, waits.
fn is_unsettled(kept: Option<Kept>) -> bool
    ensures { result ≡ option_map_or (λ k. still_waits k.entry) kept false }
{
    match kept {
        Some(kept) => still_waits(kept.entry),
        None => false,
    }
}

// Returns the number of the first request of a window that waits, or of its next one.
fn first_open_in(memory: &Memory, element: u16, base: u64, next: u64) -> u64
    requires there { bounds memory.now.contents.windows element ≡ Ok (base, next) }
    ensures { result ≡ option_map_or first_open (slice_get memory.now.contents.windows element) 0 }
{
    for number in base..next {
        if is_unsettled(memory.kept(element, number)) {
            return number;
        }
    }
    next
}

/// Returns the number of an element's first request that waits, or of its next one. It is 0 if there is no such
/// element.
pub fn first_open(memory: &Memory, element: u16) -> u64
    ensures { result ≡ option_map_or first_open (slice_get memory.now.contents.windows element) 0 }
{
    match memory.window(element) {
        Ok((base, next)) => first_open_in(memory, element, base, next),
        Err(_) => 0,
    }
}

impl Past {
    /// Counts the requests that a memory has, but for those from an element's first one on that waits.
    pub fn settled(alloc: Global, memory: &Memory) -> Result<Past, AllocError>
        ensures many { IfOk result (λ past. past.many.items ≡ numbers_settled memory.now.contents) }
        ensures end { IfOk result (λ past. past.end ≡ 0) }
    {
        let elements = memory.elements();
        let mut many = Vec::with_capacity(alloc, elements as usize)?;
        for element in 0..elements {
            many.push(first_open(memory, element).saturating_sub(1))?;
        }
        Ok(Past { many, end: 0 })
    }

    /// Counts the requests that a memory has.
    pub fn new(alloc: Global, memory: &Memory) -> Result<Past, AllocError>
        ensures many { IfOk result (λ past. past.many.items ≡ numbers_had memory.now.contents) }
        ensures end { IfOk result (λ past. past.end ≡ 0) }
    {
        let elements = memory.elements();
        let mut many = Vec::with_capacity(alloc, elements as usize)?;
        for element in 0..elements {
            many.push(count_of(memory, element))?;
        }
        Ok(Past { many, end: 0 })
    }

    /// Returns how many requests of an element are left.
    pub fn left(&self, element: u16) -> u64
        ensures { result ≡ left_of self.now.many.items element }
    {
        let at = element as usize;
        if at < self.many.len() {
            self.many[at]
        } else {
            0
        }
    }

    /// Meets an element's next request. Returns how many were left before it: 0 if the memory doesn't have it.
    pub fn meet(&mut self, element: u16) -> u64
        ensures left { result ≡ left_of self.old.many.items element }
        ensures many { self.new.many.items ≡ met self.old.many.items element }
        ensures end { self.new.end ≡ self.old.end }
    {
        let at = element as usize;
        if at < self.many.len() && self.many[at] > 0 {
            let left = self.many[at];
            self.many[at] = left - 1;
            left
        } else {
            0
        }
    }

    /// Meets what a line says. Returns whether it asks for something that the memory has.
    pub fn has(&mut self, said: Said) -> bool
        ensures new { result ≡ false → news self.old.many.items (wanted_by said) ≡ wanted_by said }
        ensures had { result ≡ true → news self.old.many.items (wanted_by said) ≡ [] }
        ensures many { self.new.many.items ≡ met_all self.old.many.items (wanted_by said) }
    {
        match said {
            Said::Nothing => false,
            Said::Begins(_element) => false,
            Said::Block(_) => self.meet(0) > 0,
            Said::Asks(line) => self.meet(line.element) > 0,
        }
    }

    /// Places the next block of the setup behind those before it. Returns its base, or `None` if it ends past the last
    /// address.
    pub fn place(&mut self, length: u32) -> Option<u32>
        ensures base { result ≡ base_placed self.old.end length }
        ensures end { self.new.end ≡ end_behind_base self.old.end length result }
        ensures many { self.new.many ≡ self.old.many }
    {
        let base = self.end;
        match base.checked_add(length) {
            Some(end) => {
                self.end = end;
                Some(base)
            }
            None => None,
        }
    }
}
