//! Reads a dump: its lines are laid down as the records of an area, the memory is read of them, and the dump of that
//! memory is compared with the text.
ghost use Rattle.std.specs.Prelude.{◌≡◌, IfOk, OnOk, IsTrue, string_bytes};
ghost use Rattle.im_types.specs.Types.{IsMemory, sizes_of};
ghost use Rattle.im_dump.specs.{Dump.dump_text, Dumping.IsDumpOf, Fitting.FitsContents};

use crate::faults::{DumpFault, TextLineFault, Wanted};
use crate::head::{HEAD_LINES, Head, fault_of, read_head};
use crate::laying::Laying;
use crate::lines::{TextLine, text_line};
use crate::writing::add_dump;
use im_image::decode;
use im_memory::Memory;
use im_script::{Quoted, split_words};
use im_types::layout::{PAGE, Version, area_at, area_pages};
use im_types::{Limits, Refusal};
use std::alloc::{AllocError, Global};

/// What a dump says: the sizes of an image, its count of commands, and its memory.
#[derive(Drop)]
pub struct Loaded {
    /// The sizes.
    pub limits: Limits,
    /// The count of commands.
    pub count: u64,
    /// The memory.
    pub memory: Memory,
}

// Lays down a line behind the head. Returns whether it is the last one.
fn take_line(
    alloc: Global,
    number: usize,
    line: &[u8],
    laying: &mut Laying,
) -> Result<bool, DumpFault> {
    let Ok(words) = split_words(alloc, line) else {
        return Err(DumpFault::NoMemory);
    };
    let line = match text_line(alloc, &words) {
        Ok(line) => line,
        Err(bad) => return Err(fault_of(number, &words, bad)),
    };
    match laying.lay(line) {
        Ok(()) => Ok(line == TextLine::End),
        Err(bad) => Err(fault_of(number, &words, bad)),
    }
}

// Lays down the lines behind the head. Returns the number of the last one.
fn take_lines(alloc: Global, text: &[u8], laying: &mut Laying) -> Result<usize, DumpFault> {
    let mut number = HEAD_LINES;
    for line in text.split(|byte| *byte == b'\n') {
        number = number.saturating_add(1);
        if take_line(alloc, number, line, laying)? {
            break;
        }
    }
    laying.put_window();
    Ok(number)
}

// Returns the image that the lines behind the head lay down, and the number of the last line.
fn lay_down(alloc: Global, limits: Limits, text: &[u8]) -> Result<(Vec<u8>, usize), DumpFault> {
    let Some(mut laying) = Laying::new(alloc, limits) else {
        return Err(DumpFault::NoMemory);
    };
    match take_lines(alloc, text, &mut laying) {
        Ok(number) => Ok((laying.into_image(), number)),
        Err(fault) => Err(fault),
    }
}

// The fault of lines that mean no memory, at the last one.
fn disagree(line: usize) -> DumpFault {
    let fault = TextLineFault::Word(Quoted::of(b"end"), Wanted::Agreement);
    DumpFault::BadLine { line, fault }
}

// Reads the memory of the records that were laid down. `last` is the number of the last line.
fn memory_in(alloc: Global, limits: Limits, image: &[u8], last: usize) -> Result<Memory, DumpFault>
    ensures { IfOk result (λ m. IsMemory limits.cells limits.elements m.contents) }
{
    let from = area_at(limits, 0);
    let size = PAGE * area_pages(limits);
    if image.len() < from || image.len() - from < size {
        return Err(disagree(last));
    }
    match decode(alloc, Version::Two, &image[from..from + size], limits) {
        Ok(memory) => Ok(memory),
        Err(Refusal::NoMemory) => Err(DumpFault::NoMemory),
        Err(_) => Err(disagree(last)),
    }
}

// Makes what a text says, without looking whether it is a dump.
fn make(alloc: Global, text: &[u8]) -> Result<Loaded, DumpFault>
    ensures { IfOk result (λ l. IsMemory l.limits.cells l.limits.elements l.memory.contents) }
{
    let (Head { limits, count }, rest) = read_head(alloc, text)?;
    let (image, last) = lay_down(alloc, limits, rest)?;
    match memory_in(alloc, limits, &image, last) {
        Ok(memory) => Ok(Loaded {
            limits,
            count,
            memory,
        }),
        Err(fault) => Err(fault),
    }
}

// Returns the dump of what was loaded.
fn spell(alloc: Global, loaded: &Loaded) -> Result<String, AllocError>
    ensures text { IfOk result (λ text. string_bytes text
        ≡ dump_text (sizes_of loaded.now.limits) loaded.now.count loaded.now.memory.contents) }
    ensures fits { OnOk result (FitsContents loaded.now.memory.contents) }
{
    let mut text = String::new(alloc);
    match add_dump(&mut text, loaded.limits, loaded.count, &loaded.memory) {
        Ok(()) => Ok(text),
        Err(error) => Err(error),
    }
}

// Whether two texts are the same.
fn is_same(text: &[u8], other: &[u8]) -> bool
    ensures { IsTrue result → text.now ≡ other.now }
{
    text == other
}

// The word that begins at a place of a text.
fn word_from(text: &[u8], from: usize) -> &[u8] {
    let rest = if from <= text.len() {
        &text[from..]
    } else {
        &[]
    };
    for (at, byte) in rest.iter().enumerate() {
        if *byte == b' ' || *byte == b'\n' {
            return &rest[..at];
        }
    }
    rest
}

// The first line in which a text isn't the dump of its memory, and the word.
fn unlike(text: &[u8], dump: &[u8]) -> DumpFault {
    let mut line: usize = 1;
    let mut from: usize = 0; // Where the word begins.
    let mut is_short = true;
    for (at, byte) in text.iter().enumerate() {
        if dump.get(at) != Some(byte) {
            is_short = false;
            break;
        }
        if *byte == b'\n' {
            line = line.saturating_add(1);
        }
        if *byte == b'\n' || *byte == b' ' {
            from = at.saturating_add(1);
        }
    }
    let wanted = Quoted::of(word_from(dump, from));
    let fault = if is_short {
        TextLineFault::Short(wanted)
    } else {
        TextLineFault::Unlike(Quoted::of(word_from(text, from)), wanted)
    };
    DumpFault::BadLine { line, fault }
}

/// Reads a dump: the sizes of an image, its count of commands and its memory. The text is exactly their dump.
///
/// Returns `BadLine` with the first line that is no line of a dump at its place, the word, and what is expected there.
/// If each line is one but the text is no dump, the line is the first in which the dump of the memory that was made
/// differs, or the last one if the lines mean no memory. Returns `NoMemory` if `alloc` refused the room for the memory.
/// It takes as much room as two images and the text.
pub fn read_dump(alloc: Global, text: &[u8]) -> Result<Loaded, DumpFault>
    ensures found { IfOk result (λ l. IsDumpOf l text.now) }
{
    let loaded = match make(alloc, text) {
        Ok(loaded) => loaded,
        Err(fault) => return Err(fault),
    };
    match spell(alloc, &loaded) {
        Ok(dump) => {
            if is_same(text, dump.as_bytes()) {
                Ok(loaded)
            } else {
                Err(unlike(text, dump.as_bytes()))
            }
        }
        Err(_) => Err(DumpFault::NoMemory),
    }
}
