//! Stories of the memory and of the layers that it is made of: lists of waiters, tables of cells, accesses of cells,
//! windows of kept replies, and the fast memory side by side with the plain one.
#![tactic(auto)]

mod accesses;
mod cells;
mod lists;
mod memories;
mod memory_walks;
mod plain_windows;
mod random_walks;
mod windows;

use accesses::Accesses;
use im_arena::Arena;
use im_cell::{CellTable, Slot};
use im_story::{Dice, Phrase, Saying, Subject, walk_file};
use lists::Queue;
use memories::Memories;
use random_walks::PlainCell;
use windows::Windows;

// What a story is about, and what a walk keeps plainly beside it. Its first line makes it. A walk may restore a table
// at each fourth step.
#[derive(Drop)]
enum Layer {
    Nothing,
    Lists(Arena, Vec<Queue>),
    Cells(CellTable, Vec<Option<Slot>>, bool),
    Accesses(Accesses, Vec<PlainCell>),
    Windows(Windows),
    Memories(Memories),
}

// Makes what a story is about, with the sizes that the call names.
fn made(call: &Phrase) -> Option<Layer> {
    let (alloc, first, second) = (call.alloc(), call.address(0), call.address(1));
    let restores = call.form().ends_with(" restored");
    match call.form() {
        "arena _ nodes _ lists" => {
            let queues = lists::queues(alloc, second)?;
            Some(Layer::Lists(Arena::new(alloc, first, second).ok()?, queues))
        }
        "table _ cells" | "table _ cells restored" => {
            let slots = vec![in alloc; None; first as usize].ok()?;
            Some(Layer::Cells(CellTable::new(alloc, first).ok()?, slots, restores))
        }
        "accesses _ cells _ nodes" => {
            Some(Layer::Accesses(Accesses::new(alloc, first, second).ok()?, Vec::new(alloc)))
        }
        "windows _" | "windows _ restored" => {
            Some(Layer::Windows(Windows::new(alloc, call.element(0), restores)?))
        }
        "memory _ cells _ elements" => {
            Some(Layer::Memories(Memories::new(alloc, first, call.element(1))?))
        }
        _ => None,
    }
}

// Makes a thrown step of this number. Returns whether all is then as it is kept plainly.
fn step(layer: &mut Layer, call: &Phrase, number: u64, dice: &mut Dice) -> bool {
    match layer {
        Layer::Nothing => false,
        Layer::Lists(arena, plain) => lists::step(arena, plain.as_mut_slice(), number, dice),
        Layer::Cells(table, plain, restores) => {
            let restores = *restores && number % 4 == 0;
            cells::step(table, plain.as_mut_slice(), dice.throw())
                && (!restores || cells::restore_beside(call.alloc(), table, plain.as_slice()))
        }
        Layer::Accesses(accesses, plain) => random_walks::step(accesses, plain, dice.throw()),
        Layer::Windows(windows) => plain_windows::step(windows, dice),
        Layer::Memories(memories) => memory_walks::step(memories, dice),
    }
}

impl Subject for Layer {
    fn begin(&mut self) {
        *self = Layer::Nothing;
    }

    fn make(&mut self, call: &Phrase, said: &mut Saying) {
        match self {
            _ if call.form() == "walk _ from _" => {
                call.walk(said, |number, dice| step(self, call, number, dice))
            }
            Layer::Nothing => match made(call) {
                Some(layer) => {
                    *self = layer;
                    said.text("made")
                }
                None => said.fail("no beginning of a story"),
            },
            Layer::Lists(arena, _) => lists::tell(arena, call, said),
            Layer::Cells(table, _, _) => cells::tell(table, call, said),
            Layer::Accesses(accesses, _) => accesses::tell(accesses, call, said),
            Layer::Windows(windows) => windows::tell(windows, call, said),
            Layer::Memories(memories) => memories::tell(memories, call, said),
        }
    }
}

/// Walks the stories of a file. Returns whether nothing was answered otherwise.
pub fn walk(rt: &HostRuntime, file: &str, said: &mut Saying) -> bool {
    walk_file(rt, file, &mut Layer::Nothing, said)
}
