//! Scripts: a text is put together line by line, and read.

use crate::ProgramDesk;
use crate::spelling::{add_text, add_word, line_ends};
use im_script::{Action, Place, Reader, Said, ScriptLine, read_script, read_u32};
use im_story::{Phrase, Saying};
use im_types::Kind;
use std::io::Write;

// Returns the word of an action, the place on which it acts, and its value.
fn parts_of(action: Action) -> (&'static str, Option<Place>, Option<u64>) {
    match action {
        Action::Alloc(Kind::I, length) => ("alloc i", None, Some(u64::from(length))),
        Action::Alloc(Kind::M, length) => ("alloc m", None, Some(u64::from(length))),
        Action::Release(place) => ("release", Some(place), None),
        Action::Reset(place) => ("reset", Some(place), None),
        Action::Fetch(place) => ("fetch", Some(place), None),
        Action::Take(place) => ("take", Some(place), None),
        Action::Store(place, value) => ("store", Some(place), Some(value)),
        Action::Put(place, value) => ("put", Some(place), Some(value)),
    }
}

// Adds a request as it stands in the script.
fn add_line(line: ScriptLine, said: &mut Saying) {
    let (word, place, value) = parts_of(line.action);
    write!(said, "element {}, {word}", line.element);
    match place {
        Some(Place::Address(address)) => write!(said, " cell {address}"),
        Some(Place::Named { index, offset }) => write!(said, " block {index} + {offset}"),
        None => {}
    }
    if let Some(value) = value {
        said.either(place.is_some(), ", ", " ");
        said.number(value);
    }
}

/// Adds the kinds and lengths of the blocks, or else the elements of the parts.
pub fn add_lines(desk: &ProgramDesk, call: &Phrase, said: &mut Saying) {
    let of_blocks = call.word(0) == "blocks";
    for line in desk.lines.as_slice() {
        match line {
            Said::Block(block) if of_blocks => {
                said.text(" ");
                said.kind(block.kind);
                write!(said, " {}", block.length)
            }
            Said::Begins(element) if !of_blocks => write!(said, " {element}"),
            _ => {}
        }
    }
}

/// Tells a request as it stands, the address on which it acts, or its operation.
pub fn add_request(desk: &ProgramDesk, call: &Phrase, said: &mut Saying) {
    let bases = desk.bases.as_slice();
    let mut requests = desk.lines.iter().filter_map(|line| match line {
        Said::Asks(line) => Some(*line),
        _ => None,
    });
    let Some(line) = requests.nth(call.place(0)) else {
        return said.fail("no such request");
    };
    match (call.word(0), parts_of(line.action).1, line.action.op(bases)) {
        ("address", Some(place), _) => said.number_or_none(place.address(bases)),
        ("operation", _, Some(op)) => said.op(op),
        ("operation", _, None) => said.text("none"),
        _ => add_line(line, said),
    }
}

// Goes through the lines of a script. Tells how many blocks, parts and requests there are.
fn hear(lines: &mut Vec<Said>, text: &[u8], call: &Phrase, said: &mut Saying) {
    let mut reader = Reader::new(call.alloc());
    let (mut blocks, mut parts, mut requests) = (0u32, 0u32, 0u32);
    for line in text.split(|byte| *byte == b'\n') {
        let heard = reader.read(call.alloc(), 1, line).unwrap_or(Said::Nothing);
        match heard {
            Said::Nothing => {}
            Said::Block(_) => blocks = blocks.saturating_add(1),
            Said::Begins(_) => parts = parts.saturating_add(1),
            Said::Asks(_) => requests = requests.saturating_add(1),
        }
        said.so(lines.push(heard).is_ok(), "");
    }
    write!(said, "{blocks} blocks, {parts} parts, {requests} requests")
}

/// Reads the text that was put together, with these words after it.
pub fn read(desk: &mut ProgramDesk, call: &Phrase, said: &mut Saying) {
    add_text(&mut desk.text, call.rest(1), said);
    desk.read = desk.take_text();
    desk.lines.clear();
    match read_script(call.alloc(), desk.read.as_slice()) {
        Ok(script) => hear(&mut desk.lines, script.text(), call, said),
        Err(fault) => {
            desk.fault = Saying::new(call.alloc());
            write!(desk.fault, "{fault}");
            said.refusal(fault.refusal())
        }
    }
}

/// Adds lines to the text that is put together: once, so many times, or for each of these numbers. In them `@` stands
/// for the number.
pub fn put(desk: &mut ProgramDesk, call: &Phrase, said: &mut Saying) {
    let (from, upto, words) = match call.word(0) {
        "script" => (1, 1, call.rest(1)),
        "repeat" => (1, call.address(0), call.rest(2)),
        _ => (call.address(0), call.address(1), call.rest(4)),
    };
    let mut lines = Vec::new(call.alloc());
    add_text(&mut lines, words, said);
    for number in from..=upto {
        for (at, part) in lines.as_slice().split(|byte| *byte == b'@').enumerate() {
            said.so(at == 0 || write!(desk.text, "{number}").is_ok(), "");
            said.so(desk.text.extend_from_slice(part).is_ok(), "");
        }
    }
    write!(said, "{} lines", line_ends(desk.text.as_slice()))
}

/// Sets the bases of the setup's blocks.
pub fn set_bases(desk: &mut ProgramDesk, call: &Phrase, said: &mut Saying) {
    desk.bases.clear();
    for at in 0..call.rest(1).len() {
        said.so(desk.bases.push(call.address(at)).is_ok(), "");
    }
    write!(said, "{} bases", desk.bases.len())
}

/// Reads a word as a number of 32 bits.
pub fn read_number(call: &Phrase, said: &mut Saying) {
    let mut text = Vec::new(call.alloc());
    add_word(&mut text, call.word(1), said);
    said.number_or_none(read_u32(text.as_slice()))
}
