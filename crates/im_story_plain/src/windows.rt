//! The windows of kept replies, by element.

use crate::queue::{Deferred, pop_first};
use im_types::{Entry, Judged, Kept, LAST, Op, Refusal, Reply, Request, WINDOW, Waiter};
use std::alloc::{AllocError, Global};

/// The entries that are kept for an element, with room for a whole window.
#[derive(Drop)]
pub struct KeptWindow {
    base: u64,
    kept: Vec<Kept>,
}

impl KeptWindow {
    /// Makes a window with no entry.
    pub fn new(alloc: Global) -> Result<Self, AllocError> {
        let kept = Vec::with_capacity(alloc, WINDOW as usize)?;
        Ok(KeptWindow { base: 1, kept })
    }

    /// Returns whether a request is new or a repeat, or why it is refused.
    pub fn judge(&self, request: &Request) -> Result<Judged, Refusal> {
        if request.number < self.base {
            return Err(Refusal::Forgotten);
        }
        let place = request.number - self.base;
        if place < self.kept.len() as u64 {
            let kept = self.kept[place as usize];
            return if kept.op == request.op {
                Ok(Judged::Repeat(kept.entry))
            } else {
                Err(Refusal::Mismatch)
            };
        }
        if place > self.kept.len() as u64 || request.number > LAST {
            return Err(Refusal::Gap);
        }
        if place < WINDOW {
            Ok(Judged::Fresh)
        } else {
            Err(Refusal::WindowFull)
        }
    }

    /// Returns the entry under a number, or why there is none.
    pub fn ask(&self, number: u64) -> Result<Entry, Refusal> {
        if number < self.base {
            return Err(Refusal::Forgotten);
        }
        let place = number - self.base;
        if place < self.kept.len() as u64 {
            Ok(self.kept[place as usize].entry)
        } else {
            Err(Refusal::Gap)
        }
    }

    /// Returns the operation and the entry under a number, or `None` if there are none.
    pub fn kept(&self, number: u64) -> Option<Kept> {
        if number < self.base {
            return None;
        }
        let place = number - self.base;
        if place < self.kept.len() as u64 {
            Some(self.kept[place as usize])
        } else {
            None
        }
    }

    /// Returns the base, and the number of the next new request.
    pub fn bounds(&self) -> (u64, u64) {
        (self.base, self.base.saturating_add(self.kept.len() as u64))
    }

    /// Keeps an operation with its entry, under the next number.
    pub fn note(&mut self, op: Op, entry: Entry) {
        let _kept = self.kept.push(Kept { op, entry });
    }

    /// Answers the entry under a number.
    pub fn answer(&mut self, number: u64, reply: Reply) {
        let place = number.saturating_sub(self.base);
        if place < self.kept.len() as u64 {
            self.kept[place as usize].entry = Entry::Answered(reply);
        }
    }

    // Returns the number of entries that a confirmation drops, or why it is refused.
    fn count_below(&self, upto: u64) -> Result<usize, Refusal> {
        let count = upto.saturating_sub(self.base);
        if count > self.kept.len() as u64 {
            return Err(Refusal::Gap);
        }
        if has_waiting(&self.kept.as_slice()[..count as usize]) {
            return Err(Refusal::NotAnswered);
        }
        Ok(count as usize)
    }

    /// Returns whether a confirmation would drop an entry, or why it would be refused.
    pub fn judge_confirm(&self, upto: u64) -> Result<bool, Refusal> {
        self.count_below(upto)?;
        Ok(self.base < upto)
    }

    /// Drops the entries below a number if each of them is answered. Returns why it is refused otherwise.
    pub fn confirm(&mut self, upto: u64) -> Result<(), Refusal> {
        let count = self.count_below(upto)?;
        drop_front(&mut self.kept, count);
        self.base = self.base.max(upto);
        Ok(())
    }
}

// Returns whether an entry is waiting.
fn has_waiting(kept: &[Kept]) -> bool {
    kept.iter().any(|k| matches!(k.entry, Entry::Waiting))
}

// Drops the first `count` entries.
fn drop_front(kept: &mut Vec<Kept>, count: usize) {
    for _ in 0..count {
        if !kept.is_empty() {
            let _dropped = kept.remove(0);
        }
    }
}

/// Returns whether a request is new or a repeat, or why it is refused.
pub fn judge(windows: &[KeptWindow], request: &Request) -> Result<Judged, Refusal> {
    let at = request.element as usize;
    if at >= windows.len() {
        return Err(Refusal::NoElement);
    }
    let window = &windows[at];
    window.judge(request)
}

/// Returns the entry that is kept for a request, or why there is none.
pub fn ask(windows: &[KeptWindow], who: Waiter) -> Result<Entry, Refusal> {
    let at = who.element as usize;
    if at >= windows.len() {
        return Err(Refusal::NoElement);
    }
    let window = &windows[at];
    window.ask(who.number)
}

/// Returns the operation and the entry that are kept for a request, or `None` if there are none.
pub fn kept_for(windows: &[KeptWindow], who: Waiter) -> Option<Kept> {
    let at = who.element as usize;
    if at >= windows.len() {
        return None;
    }
    let window = &windows[at];
    window.kept(who.number)
}

/// Returns the base of an element's window and the number of its next new request, or `NoElement`.
pub fn bounds(windows: &[KeptWindow], element: u16) -> Result<(u64, u64), Refusal> {
    let at = element as usize;
    if at >= windows.len() {
        return Err(Refusal::NoElement);
    }
    let window = &windows[at];
    Ok(window.bounds())
}

/// Returns whether a confirmation would drop an entry, or why it would be refused.
pub fn judge_confirm(windows: &[KeptWindow], element: u16, upto: u64) -> Result<bool, Refusal> {
    let at = element as usize;
    if at >= windows.len() {
        return Err(Refusal::NoElement);
    }
    let window = &windows[at];
    window.judge_confirm(upto)
}

/// Keeps a request's operation with its entry.
pub fn note(windows: &mut [KeptWindow], request: &Request, entry: Entry) {
    let at = request.element as usize;
    if at < windows.len() {
        let window = &mut windows[at];
        window.note(request.op, entry);
    }
}

/// Answers the entry of a request.
pub fn answer(windows: &mut [KeptWindow], who: Waiter, reply: Reply) {
    let at = who.element as usize;
    if at < windows.len() {
        let window = &mut windows[at];
        window.answer(who.number, reply);
    }
}

/// Drops an element's entries below a number if each of them is answered. Returns why it is refused otherwise.
pub fn confirm(windows: &mut [KeptWindow], element: u16, upto: u64) -> Result<(), Refusal> {
    let at = element as usize;
    if at >= windows.len() {
        return Err(Refusal::NoElement);
    }
    let window = &mut windows[at];
    window.confirm(upto)
}

/// Answers the first `count` requests that wait at a cell with a value, and takes them out of the queue.
pub fn resume(
    windows: &mut [KeptWindow],
    queue: &mut Vec<Deferred>,
    a: u32,
    count: usize,
    value: u64,
) {
    for _ in 0..count {
        if let Some(who) = pop_first(queue, a) {
            answer(windows, who, Reply::Value(value));
        }
    }
}
