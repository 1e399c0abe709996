//! A standstill: every window that has asked is full of waits, so nothing can go on by those that asked.

use im_memory::Memory;
use im_types::{Entry, WINDOW};
use std::fmt::{self, Display, Formatter};

// How many elements are named at most.
const NAMED: u32 = 8;

// Whether an element has asked anything.
fn has_asked(memory: &Memory, element: u16) -> bool {
    match memory.window(element) {
        Ok((_base, next)) => next > 1,
        Err(_) => false,
    }
}

// Whether an element can't ask before its oldest entry is answered: its window is full, and that entry waits, so no
// confirmation makes a place.
fn is_stuck(memory: &Memory, element: u16) -> bool {
    let Ok((base, next)) = memory.window(element) else {
        return false;
    };
    let oldest = memory.kept(element, base).map(|kept| kept.entry);
    next.saturating_sub(base) == WINDOW && matches!(oldest, Some(Entry::Waiting))
}

/// Whether some element has asked, and each that has is stuck. Then only a request of another one can answer.
pub(crate) fn is_at_standstill(memory: &Memory) -> bool {
    let mut is_some_stuck = false;
    for element in 0..memory.elements() {
        if is_stuck(memory, element) {
            is_some_stuck = true;
        } else if has_asked(memory, element) {
            return false;
        }
    }
    is_some_stuck
}

/// The numbers of the elements that are stuck, the first ones if there are many.
#[derive(Clone, Copy)]
pub(crate) struct StuckElements<'a>(pub(crate) &'a Memory);

impl Display for StuckElements<'_> {
    fn fmt<W: fmt::Write>(&self, f: &mut Formatter<W>) -> fmt::Result {
        let mut named: u32 = 0;
        for element in 0..self.0.elements() {
            if is_stuck(self.0, element) {
                if named == NAMED {
                    return f.write_str(", ..");
                }
                let before = if named == 0 { "" } else { ", " };
                write!(f, "{before}{element}")?;
                named = named.saturating_add(1);
            }
        }
        Ok(())
    }
}
