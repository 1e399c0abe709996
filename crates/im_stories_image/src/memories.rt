//! Calls on a memory that was made or was read from an image.

use crate::desk::ImageDesk;
use im_image::{PAGE, area_pages, decode, encode};
use im_memory::Memory;
use im_story::{Phrase, Saying, command};
use im_types::layout::Version;
use im_types::{Block, Limits, Outcome};
use std::alloc::Global;

/// Returns the pages of a memory, written over other bytes. There are none if the memory has other sizes.
pub fn area_of(alloc: Global, memory: &Memory, limits: Limits) -> Option<Vec<u8>> {
    let mut area = vec![in alloc; 0xEE; PAGE * area_pages(limits)].ok()?;
    if memory.cells() != limits.cells || memory.elements() != limits.elements {
        return None;
    }
    encode(memory, limits, &mut area);
    Some(area)
}

// Tells who waits at a cell, in order.
fn tell_waiting(memory: &Memory, a: u32, said: &mut Saying) {
    for waiter in memory.waiters(a) {
        said.who(waiter);
    }
}

// Tells all cells with who waits at them, and all windows with what is kept in them.
fn tell_all(memory: &Memory, said: &mut Saying) {
    for a in 0..memory.cells() {
        said.place(memory.cell(a), memory.block(a));
        tell_waiting(memory, a, said);
    }
    for element in 0..memory.elements() {
        let window = memory.window(element);
        let (base, next) = window.unwrap_or((1, 1));
        said.window(window);
        for number in base..next {
            said.kept(memory.kept(element, number));
        }
    }
}

// Returns whether the memory that its pages show has the same cells and the same windows.
fn is_read_again(alloc: Global, memory: &Memory, limits: Limits) -> bool {
    let Some(area) = area_of(alloc, memory, limits) else {
        return false;
    };
    if area.len() != PAGE * area_pages(limits) {
        return false;
    }
    let Ok(again) = decode(alloc, Version::Two, &area, limits) else {
        return false;
    };
    let (mut told, mut same) = (Saying::new(alloc), Saying::new(alloc));
    tell_all(memory, &mut told);
    tell_all(&again, &mut same);
    told.said() == same.said() && !told.is_wrong()
}

// Makes random commands, with the pages read again after the first of each so many.
fn walk(here: &mut ImageDesk, call: &Phrase, said: &mut Saying) {
    let (Some(memory), Some(limits)) = (&mut here.memory, here.limits) else {
        return said.fail("there is no memory");
    };
    let (alloc, every, mut accepted) = (call.alloc(), call.number(2), 0u64);
    call.walk(said, |number, dice| {
        let element = dice.below(4) as u16;
        let window = memory.window(element).unwrap_or((1, 1));
        let command = dice.command(element, window, limits.cells);
        if let Ok(Outcome::Entry(_)) = memory.step(&command) {
            accepted = accepted.saturating_add(1);
        }
        every == 0 || number % every != 0 || is_read_again(alloc, memory, limits)
    });
    said.either(accepted > 100, ", more", ", no more");
    said.text(" than 100 accepted")
}

// Tells a block, or that a cell is in none.
fn tell_block(block: Option<Block>, said: &mut Saying) {
    match block {
        Some(block) => {
            said.kind(block.kind);
            write!(said, " {} at {}", block.length, block.base)
        }
        None => said.text("none"),
    }
}

/// Makes a call on the memory. Returns whether it is one.
pub fn tell(here: &mut ImageDesk, call: &Phrase, said: &mut Saying) -> bool {
    let (element, number, a) = (call.element(0), call.number(1), call.address(0));
    match (call.form(), command(call.rest(1)), &mut here.memory) {
        ("walk _ from _ reading each _", _, _) => walk(here, call, said),
        ("block _", _, Some(memory)) => tell_block(memory.block(a), said),
        ("waiting _", _, Some(memory)) => tell_waiting(memory, a, said),
        ("collect _._", _, Some(memory)) => said.answer(memory.collect(element, number)),
        ("window _", _, Some(memory)) => said.window(memory.window(element)),
        (_, Some(command), Some(memory)) if call.word(0) == "step" => {
            said.outcome(memory.step(&command))
        }
        _ => return false,
    }
    true
}
