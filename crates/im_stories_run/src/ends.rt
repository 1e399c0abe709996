//! The ends that requests of elements may come to, by the plain memory: in each order that keeps each element's own.

use im_story::Saying;
use im_story_plain::PlainMemory;
use im_types::{Cell, Command, Limits, Refusal, Request};
use std::alloc::Global;

/// An end.
#[derive(Drop)]
pub struct End {
    /// The lines of all cells and elements, as a report has them, and its status.
    pub lines: Saying,
    /// What one more run prints: for each request `done` if it was confirmed, or else its reply.
    pub printed: Saying,
}

/// Returns the sizes of the images that are stopped.
pub fn few() -> Option<Limits> {
    Limits::new(16, 5, 16)
}

impl End {
    // Adds what is kept for an element, if it has asked anything.
    fn add_element(&mut self, memory: &PlainMemory, element: u16) {
        let (base, next) = memory.window(element).unwrap_or((1, 1));
        if next > 1 {
            let count = next.saturating_sub(base);
            writeln!(self.lines, "element {element} base {base} kept {count}");
        }
        for number in 1..base {
            writeln!(self.printed, "{element}.{number} done");
        }
        for number in base..next {
            let kept = memory.kept(element, number);
            write!(self.lines, "entry {element}.{number} ");
            self.lines.kept(kept);
            self.lines.text("\n");
            write!(self.printed, "{element}.{number} ");
            if let Some(kept) = kept {
                self.printed.entry(kept.entry);
            }
            self.printed.text("\n");
        }
    }

    // Returns that of this memory.
    fn of(alloc: Global, memory: &PlainMemory) -> End {
        let (mut lines, printed) = (Saying::new(alloc), Saying::new(alloc));
        for a in 0..memory.cells() {
            let cell = memory.cell(a).unwrap_or(Cell::Empty);
            if cell != Cell::Empty {
                write!(lines, "cell {a} ");
                lines.cell(cell);
                lines.text("\n");
            }
        }
        let mut end = End { lines, printed };
        for element in 0..memory.elements() {
            end.add_element(memory, element);
        }
        end.lines.text("status 0\n");
        end
    }
}

// Makes the next request of an element. If the window is full, all of it is confirmed first. Returns whether it is
// made.
fn step(memory: &mut PlainMemory, requests: &[Request], element: u16) -> bool {
    let (_, upto) = memory.window(element).unwrap_or((1, 1));
    let mut its = requests.iter().filter(|it| it.element == element);
    let Some(request) = its.find(|it| it.number == upto) else {
        return false;
    };
    let command = Command::Request(*request);
    let made = memory.step(&command);
    if made != Err(Refusal::WindowFull) {
        return made.is_ok();
    }
    let _confirmed = memory.step(&Command::Confirm { element, upto });
    memory.step(&command).is_ok()
}

// Makes all requests: those of element 0, and then the others in an order. The digits of its number, to a base of as
// many as there are other elements, are the elements whose turn it is. Returns the end, if it is an order of them.
fn end_of(alloc: Global, requests: &[Request], others: u64, order: u64) -> Option<End> {
    let mut memory = PlainMemory::new(alloc, few()?).ok()?;
    let mut rest = order;
    for request in requests {
        let mut element = 0;
        if request.element != 0 && others != 0 {
            element = u16::try_from((rest % others).saturating_add(1)).unwrap_or(0);
            rest /= others;
        }
        if !step(&mut memory, requests, element) {
            return None;
        }
    }
    Some(End::of(alloc, &memory))
}

/// Returns all ends of these requests. Those of element 0 stand first, and the last element's last.
pub fn ends_of(alloc: Global, requests: &[Request]) -> Vec<End> {
    let others = requests.last().map_or(0, |last| u64::from(last.element));
    let turns = requests.iter().filter(|it| it.element != 0).count();
    let numbers = others.saturating_pow(u32::try_from(turns).unwrap_or(u32::MAX));
    let mut ends = Vec::new(alloc);
    for order in 0..numbers {
        if let Some(end) = end_of(alloc, requests, others, order) {
            add_end(&mut ends, end);
        }
    }
    ends
}

// Adds an end that isn't among those before it.
fn add_end(ends: &mut Vec<End>, end: End) {
    let mut before = ends.iter();
    if !before.any(|other| other.lines.said() == end.lines.said()) {
        let _kept = ends.push(end);
    }
}

/// Returns whether one of these ends has these lines, and one more run prints this.
pub fn has_end(ends: &[End], lines: &str, printed: &str) -> bool {
    let mut same = ends.iter().filter(|end| end.lines.said() == lines);
    same.any(|end| end.printed.said() == printed)
}
