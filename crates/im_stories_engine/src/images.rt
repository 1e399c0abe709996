//! Formats, closes and opens images, and tells what an engine knows of itself and of its memory.

use crate::engines::{Engines, StoryScript};
use im_image::{image_length, journal_at};
use im_memory::Memory;
use im_story::{Phrase, Saying};

// Formats a file of its image's length, or of the length that is told.
fn format(engines: &mut Engines, call: &Phrase, said: &mut Saying) {
    let Some(limits) = call.limits(0) else {
        return said.fail("these are no sizes");
    };
    let length = match call.form() {
        "format _ _ _" => image_length(limits),
        _ => call.place(3),
    };
    engines.script = Some(StoryScript::none(call.alloc(), limits));
    said.check(engines.file.lay(&[], length));
    said.done(engines.file.start(Some(limits)), "formatted")
}

// Tells the bytes of a slot of the journal.
fn tell_slot(engines: &Engines, slot: usize, said: &mut Saying) {
    let Some(script) = &engines.script else {
        return said.fail("no image was formatted");
    };
    let at = journal_at(script.limits).saturating_add(slot.saturating_mul(64));
    said.part(engines.file.bytes(), at, 64, 8)
}

// Tells who waits at a cell, in order.
fn tell_waiting(memory: &Memory, a: u32, said: &mut Saying) {
    for waiter in memory.waiters(a) {
        said.text(" ");
        said.waiter(Some(waiter));
    }
}

/// Makes a call of an engine or of its image. Returns whether it is one.
pub fn tell(engines: &mut Engines, call: &Phrase, said: &mut Saying) -> bool {
    let (a, element) = (call.address(0), call.element(0));
    match (call.form(), &engines.file.engine) {
        ("format _ _ _" | "format _ _ _ in _ bytes", _) => format(engines, call, said),
        ("open", _) => said.done(engines.file.start(None), "opened"),
        ("close", Some(_)) => {
            engines.file.close();
            said.text("closed")
        }
        ("slot _", _) => tell_slot(engines, call.place(0), said),
        ("count", Some(engine)) => said.number(engine.count()),
        ("room", Some(engine)) => said.number(engine.room() as u64),
        ("failed", Some(engine)) => said.number(engine.failed()),
        ("window _", Some(engine)) => said.window(engine.window(element)),
        ("collect _._", Some(engine)) => said.answer(engine.collect(element, call.number(1))),
        ("cell _", Some(engine)) => said.place(engine.memory().cell(a), engine.memory().block(a)),
        ("waiting _", Some(engine)) => tell_waiting(engine.memory(), a, said),
        _ => return false,
    }
    true
}
