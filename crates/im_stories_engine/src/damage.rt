//! Files that someone has damaged, and the results of opening them.

use crate::engines::Engines;
use im_image::{PAGE, area_pages, encode};
use im_story::{Phrase, Saying, bytes, changes};
use im_story_disk::StoryFile;
use im_types::Limits;

// Tells the results for copies of a file with each of the bytes that these words name at a place.
fn tell_at(copy: &mut StoryFile, file: &[u8], at: usize, words: &[&str], said: &mut Saying) {
    let Some(values) = bytes(said.alloc(), words) else {
        return said.fail("these are no bytes");
    };
    for value in values.as_slice() {
        said.either(said.is_empty(), "", ", ");
        said.check(copy.lay(file, file.len()) && copy.put(at, &[*value]));
        copy.tell_opening(said);
    }
}

// Tells the results for copies with each value of the byte at a place; equal ones in a row once, as they are left open.
fn tell_values(copy: &mut StoryFile, file: &[u8], at: usize, said: &mut Saying) {
    said.each(0..=255, |value, one| {
        let value = u8::try_from(value).unwrap_or(0);
        one.check(copy.lay(file, file.len()) && copy.put(at, &[value]));
        one.done(copy.start(None), "opened")
    })
}

// Tells the result for a copy of this length, or with the bytes that the call names.
fn tell_copy(engines: &Engines, call: &Phrase, said: &mut Saying) {
    let mut copy = engines.file.copy();
    let is_made = match (call.form(), changes(call.alloc(), call.rest(1))) {
        ("length _", _) => copy.cut(call.place(0)),
        (_, Some(changes)) => copy.put_each(changes.as_slice()),
        _ => false,
    };
    said.check(is_made);
    copy.tell_opening(said)
}

// Keeps the pages that show the engine's memory. Tells how many they are.
fn keep_pages(engines: &mut Engines, call: &Phrase, said: &mut Saying) {
    let Some(engine) = &engines.file.engine else {
        return said.fail("no engine");
    };
    let memory = engine.memory();
    let Some(limits) = Limits::new(memory.cells(), memory.elements(), 16) else {
        return said.fail("these are no sizes");
    };
    let pages = area_pages(limits);
    let Ok(mut area) = vec![in call.alloc(); 0; PAGE * pages] else {
        return said.fail("no memory is left");
    };
    encode(memory, limits, &mut area);
    engines.pages = area;
    write!(said, "{pages}")
}

// Tells the results for copies of each length, from one to another; or with other bytes at each place, which have to be
// the same.
fn tell_copies(engines: &Engines, call: &Phrase, said: &mut Saying) {
    let (file, mut copy) = (engines.file.bytes(), StoryFile::new(call.alloc()));
    let cases = call.number(0)..=call.number(1);
    match call.word(2) {
        "length" => said.each(cases, |length, one| {
            one.check(copy.lay(file, length as usize));
            one.done(copy.start(None), "opened")
        }),
        "value" => said.alike(cases, |at, one| {
            tell_values(&mut copy, file, at as usize, one)
        }),
        _ => said.alike(cases, |at, one| {
            tell_at(&mut copy, file, at as usize, call.rest(5), one)
        }),
    }
}

/// Opens copies of the closed file, or puts pages of a memory into it. Returns whether the call is one of these.
pub fn tell(engines: &mut Engines, call: &Phrase, said: &mut Saying) -> bool {
    match (call.word(0), call.form()) {
        (_, "pages") => keep_pages(engines, call, said),
        (_, "damage pages at _") => {
            let is_put = engines.file.put(call.place(0), engines.pages.as_slice());
            said.so(is_put, "done")
        }
        (_, "in each length _ to _" | "in each value of _ to _") | ("each", _) => {
            tell_copies(engines, call, said)
        }
        (_, "length _") | ("with", _) => tell_copy(engines, call, said),
        _ => return false,
    }
    true
}
