//! What was printed, and what was told besides, line by line.

use crate::ProgramDesk;
use crate::spelling::line_ends;
use im_story::{Phrase, Saying};
use im_text::Progress;

// Returns the line at this place of a text, from 0.
fn line_of(text: &str, at: usize) -> Option<&str> {
    text.split_terminator('\n').nth(at)
}

// Adds how many lines end in a text.
fn add_count(text: &str, said: &mut Saying) {
    let is_whole = text.is_empty() || text.ends_with('\n');
    write!(said, "{} lines", line_ends(text.as_bytes()));
    said.either(is_whole, "", ", and one that doesn't end")
}

// Adds a line, in quotes if it starts or ends with a space.
fn add_line(text: &str, at: usize, said: &mut Saying) {
    match line_of(text, at) {
        Some(line) if line.trim().len() == line.len() => said.text(line),
        Some(line) => write!(said, "'{line}'"),
        None => said.fail("there is no such line"),
    }
}

// Adds the answer that lines have in common. Their requests have one number after another.
fn add_run(text: &str, call: &Phrase, said: &mut Saying) {
    let (first, last) = (call.place(0), call.place(1));
    let line = line_of(text, first).unwrap_or("");
    let (who, answer) = line.split_once(' ').unwrap_or(("", ""));
    let (element, number) = who.split_once('.').unwrap_or(("", ""));
    let from = number.parse::<u64>().unwrap_or(0);
    let mut upto = from;
    for at in first..=last {
        upto = from.saturating_add(at.saturating_sub(first) as u64);
        let mut expected = Saying::new(call.alloc());
        write!(expected, "{element}.{upto} {answer}");
        said.so(line_of(text, at) == Some(expected.said()), "");
    }
    write!(said, "{element}.{from} to {element}.{upto} {answer}")
}

/// Adds how far the work came, as it was last told, if it was.
pub fn add_progress(progress: Option<Progress>, said: &mut Saying) {
    if let Some(it) = progress {
        write!(said, "{} served, room {}", it.served, it.room);
        write!(said, ", {} checkpoints", it.checkpoints)
    }
}

/// Tells how many lines were printed, or told besides; one of them, or what some of them have in common.
pub fn tell(desk: &ProgramDesk, call: &Phrase, said: &mut Saying) {
    let text = match call.word(0) {
        "told" => desk.notes.told.said(),
        _ => desk.out.text(),
    };
    match call.form() {
        "printed" | "told" => add_count(text, said),
        "printed _" | "told _" => add_line(text, call.place(0), said),
        "printed _ to _" => add_run(text, call, said),
        _ => said.fail("there is no such call"),
    }
}
