//! Reads the head of a dump. Nothing is promised here: what is loaded is compared with the text.

use crate::faults::{DumpFault, TextLineFault, Wanted};
use crate::words::{Bad, ends_at, is_at, number_at};
use crate::writing::FIRST;
use im_script::{Quoted, split_line, split_words};
use im_types::{LAST, Limits, MAX_CELLS, MAX_ELEMENTS, MAX_SLOTS, MIN_SLOTS};
use std::alloc::Global;

/// The number of lines of the head.
pub(crate) const HEAD_LINES: usize = 5;

/// The head of a text: the sizes and the count.
#[derive(Clone, Copy, Debug, PartialEq, Eq)]
pub(crate) struct Head {
    pub(crate) limits: Limits,
    pub(crate) count: u64,
}

/// The fault of a line with these words.
pub(crate) fn fault_of(line: usize, words: &[&[u8]], bad: Bad) -> DumpFault {
    let fault = match words.get(bad.at) {
        Some(word) => TextLineFault::Word(Quoted::of(word), bad.wanted),
        None => TextLineFault::Ends(bad.wanted),
    };
    DumpFault::BadLine { line, fault }
}

// A line of the head: its number in the text, its name, and the range of its number.
#[derive(Clone, Copy, Debug, PartialEq, Eq)]
struct Field {
    line: usize,
    name: &'static [u8],
    least: u64,
    most: u64,
    wanted: Wanted,
}

const CELLS: Field = Field {
    line: 2,
    name: b"cells",
    least: 1,
    most: MAX_CELLS as u64,
    wanted: Wanted::Cells,
};

const ELEMENTS: Field = Field {
    line: 3,
    name: b"elements",
    least: 1,
    most: MAX_ELEMENTS as u64,
    wanted: Wanted::Elements,
};

const SLOTS: Field = Field {
    line: 4,
    name: b"slots",
    least: MIN_SLOTS as u64,
    most: MAX_SLOTS as u64,
    wanted: Wanted::Slots,
};

const COUNT: Field = Field {
    line: 5,
    name: b"count",
    least: 0,
    most: LAST,
    wanted: Wanted::Count,
};

// The text behind a line.
fn behind(rest: Option<&[u8]>) -> &[u8] {
    match rest {
        Some(rest) => rest,
        None => &[],
    }
}

// Reads a name and a number.
fn number_of(words: &[&[u8]], field: &Field) -> Result<u64, Bad> {
    let wanted = field.wanted;
    if !is_at(words, 0, field.name) {
        return Err(Bad { at: 0, wanted });
    }
    let value = number_at(words, 1, field.most, wanted)?;
    if value < field.least {
        return Err(Bad { at: 1, wanted });
    }
    ends_at(words, 2)?;
    Ok(value)
}

// Reads a line of the head. Returns its number, and the text behind the line.
fn read_field<'a>(
    alloc: Global,
    text: &'a [u8],
    field: &Field,
) -> Result<(u64, &'a [u8]), DumpFault> {
    let (line, rest) = split_line(text);
    let Ok(words) = split_words(alloc, line) else {
        return Err(DumpFault::NoMemory);
    };
    match number_of(&words, field) {
        Ok(value) => Ok((value, behind(rest))),
        Err(bad) => Err(fault_of(field.line, &words, bad)),
    }
}

// Reads the first line. Returns the text behind it.
fn read_first(alloc: Global, text: &[u8]) -> Result<&[u8], DumpFault> {
    let (line, rest) = split_line(text);
    if line == FIRST.as_bytes() {
        return Ok(behind(rest));
    }
    let Ok(words) = split_words(alloc, line) else {
        return Err(DumpFault::NoMemory);
    };
    let bad = Bad {
        at: 0,
        wanted: Wanted::First,
    };
    Err(fault_of(1, &words, bad))
}

// The limits of these numbers, if they are in range.
fn limits_of(cells: u64, elements: u64, slots: u64) -> Option<Limits> {
    if cells > MAX_CELLS as u64 || elements > MAX_ELEMENTS as u64 || slots > MAX_SLOTS as u64 {
        return None;
    }
    Limits::new(cells as u32, elements as u16, slots as u32)
}

/// Reads the five lines of the head. Returns the text behind them.
pub(crate) fn read_head(alloc: Global, text: &[u8]) -> Result<(Head, &[u8]), DumpFault> {
    let text = read_first(alloc, text)?;
    let (cells, text) = read_field(alloc, text, &CELLS)?;
    let (elements, text) = read_field(alloc, text, &ELEMENTS)?;
    let (slots, text) = read_field(alloc, text, &SLOTS)?;
    let (count, text) = read_field(alloc, text, &COUNT)?;
    match limits_of(cells, elements, slots) {
        Some(limits) => Ok((Head { limits, count }, text)),
        None => Err(ends_wrong(SLOTS.line, SLOTS.wanted)),
    }
}

// A line ends where this is wanted.
fn ends_wrong(line: usize, wanted: Wanted) -> DumpFault {
    let fault = TextLineFault::Ends(wanted);
    DumpFault::BadLine { line, fault }
}
