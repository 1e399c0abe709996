//! Calls that take memory, of which any one growth may be refused. The call then returns `NoMemory`, all is as it was,
//! and when it is asked again it does its work. If it is the record of the disk in memory that can't grow, the call
//! returns `Device`, and the same disk is opened again. So what is told here is the same, whichever growth is refused
//! (`scripts/refuse-each-growth growths`).
#![tactic(auto)]

mod disks;
mod ports;
mod requests;
mod served;

use crate::disks::{format, look_again, start, state, sum};
use crate::ports::{act_on, begin, begun};
use crate::requests::{ALL, FIRST, lacks_memory};
use crate::served::{run, serve_first, turn};
use im_disk::MemDisk;
use im_pipes::{Received, pipe};
use im_story::Saying;
use im_story_disk::StoryFile;
use im_types::Limits;
use std::alloc::Global;
use std::sync::Wait;

// The number of bytes, items or lines that is too much.
const TOO_MUCH: usize = 1 << 60;

// Makes a new image and its requests, then a checkpoint of them.
fn show_turned(place: &mut StoryFile, limits: Limits, said: &mut Saying) {
    said.text("  served:");
    format(place, limits, said);
    serve_first(place, ALL, said);
    write!(said, " count {}\n", state(place).count);
    turn(place, said);
    write!(said, "  turned: room {}\n", state(place).room)
}

// Makes the same requests in one run.
fn show_run(place: &mut StoryFile, limits: Limits, said: &mut Saying) {
    said.text("  run:");
    format(place, limits, said);
    run(place, said);
    write!(said, " count {}\n", state(place).count)
}

// Shows what is found on the disk of an engine, and by an opening.
fn show_opened(place: &mut StoryFile, said: &mut Saying) {
    place.close();
    look_again(place, said);
    start(place, None, said);
    let now = state(place);
    write!(said, "  opened: count {}, room {}\n", now.count, now.room)
}

// Makes the same requests through ports, except for the one that makes the block.
fn show_ports<R: Wait>(
    rt: &R,
    place: &mut StoryFile,
    limits: Limits,
    is_planned: bool,
    said: &mut Saying,
) {
    format(place, limits, said);
    serve_first(place, FIRST, said);
    let before = state(place);
    match begun(rt, place, is_planned, said) {
        Ok(opening) => act_on(rt, place, opening, before, said),
        Err(_) => said.fail("refused twice"),
    }
    write!(said, " count {}\n", state(place).count)
}

// Makes a pipe, and again if that is refused. Passes an item through it.
fn show_pipe<R: Wait>(rt: &R, alloc: Global, said: &mut Saying) {
    for _ in 0..2 {
        match pipe::<u64>(alloc, 2) {
            Ok((mut inlet, mut outlet)) => {
                let sent = inlet.send(rt, 7).is_ok();
                let came = matches!(outlet.receive(rt), Received::Item(7));
                return write!(said, "  piped: sent {sent}, came {came}\n");
            }
            Err(refusal) => lacks_memory(refusal, true, said),
        }
    }
    said.fail("refused twice")
}

// Asks for more than there can be, which is refused each time. If it is a trace, the engine stays as it was, and so
// does its disk.
fn show_too_much<R: Wait>(rt: &R, place: &mut StoryFile, limits: Limits, said: &mut Saying) {
    said.text("  too much:");
    if let Err(refusal) = MemDisk::new(place.alloc, TOO_MUCH) {
        write!(said, " a disk {refusal},")
    }
    if let Err(refusal) = pipe::<u64>(place.alloc, TOO_MUCH) {
        write!(said, " a pipe {refusal},")
    }
    format(place, limits, said);
    place.close();
    let bytes = sum(place);
    start(place, None, said);
    let before = state(place);
    match begin(rt, place, false, TOO_MUCH) {
        Ok(opening) => act_on(rt, place, opening, before, said),
        Err(refusal) => write!(said, " a trace {refusal}"),
    }
    let is_same = state(place) == before;
    place.close();
    let is_same = is_same && sum(place) == bytes;
    write!(said, ", as it was before: {is_same}\n")
}

/// Shows each call that takes memory, except for those of threads, in a text with room for 4,096 bytes more.
pub fn show<R: Wait>(rt: &R, alloc: Global, said: &mut Saying) {
    let Some(limits) = Limits::new(4, 3, 16) else {
        return said.fail("these are no sizes");
    };
    let mut place = StoryFile::new(alloc);
    said.text("growths: the same is told, whichever is refused\n");
    show_turned(&mut place, limits, said);
    show_opened(&mut place, said);
    show_run(&mut place, limits, said);
    show_opened(&mut place, said);
    said.text("  under the lock:");
    show_ports(rt, &mut place, limits, false, said);
    said.text("  under a plan:");
    show_ports(rt, &mut place, limits, true, said);
    show_pipe(rt, alloc, said);
    show_too_much(rt, &mut place, limits, said)
}
