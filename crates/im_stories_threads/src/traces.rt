//! What a trace shows.

use crate::acts::{Sizes, limits_of};
use crate::players::NO_CELL;
use im_controller::Traced;
use im_story::Saying;
use im_story_plain::PlainMemory;
use im_types::{Call, Command, Outcome};
use std::alloc::Global;

/// Tells how many requests of an element a trace has, if it has some. They have to be numbered in order from 1 on and
/// each answered `nocell`.
pub fn add_fetches(trace: &[Traced], element: u16, said: &mut Saying) {
    let mut many = 0u64;
    for traced in trace {
        let line = traced.line();
        let Call::Command(Command::Request(request)) = line.call else {
            continue;
        };
        if request.element == element {
            many = many.saturating_add(1);
            if request.number != many || line.answer != NO_CELL {
                return writeln!(said, "  {element}: not in order");
            }
        }
    }
    if many != 0 {
        writeln!(said, "  {element}: {many} nocell, in order")
    }
}

/// Returns how many lines of a trace, from the first, a plain memory of these sizes answers alike.
pub fn alike(alloc: Global, sizes: Sizes, trace: &[Traced]) -> usize {
    let Some(limits) = limits_of(sizes) else {
        return 0;
    };
    let Ok(mut memory) = PlainMemory::new(alloc, limits) else {
        return 0;
    };
    let mut many = 0usize;
    for traced in trace {
        let line = traced.line();
        let again = match line.call {
            Call::Command(command) => memory.step(&command),
            Call::Collect { element, number } => memory
                .collect(element, number)
                .map(Outcome::Entry),
        };
        if again != line.answer {
            break;
        }
        many = many.saturating_add(1);
    }
    many
}
