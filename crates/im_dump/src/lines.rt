//! Reads the lines of a dump. Nothing is promised here: what is loaded is compared with the text.

use crate::faults::Wanted;
use crate::words::{
    Bad, arrow_in, ends_at, entry_from, is_at, kind_at, number_at, op_before, waiter_at,
};
use im_types::{Block, Kept, LAST, Waiter};
use std::alloc::Global;

/// What a line behind the head says.
#[derive(Clone, Copy, Debug, PartialEq, Eq)]
pub(crate) enum TextLine {
    /// A block begins.
    Begins(Block),
    /// A request waits at a cell, behind those of the lines before.
    Waits(u32, Waiter),
    /// A cell has a value.
    Full(u32, u64),
    /// A cell was written while it had this value.
    Clashed(u32, u64),
    /// The entries of an element are numbered from here on.
    Base(u16, u64),
    /// What is kept for a request.
    Entry(Waiter, Kept),
    /// The dump ends.
    End,
}

// Reads a line about the cell at an address.
fn cell_line(words: &[&[u8]], a: u32) -> Result<TextLine, Bad> {
    if is_at(words, 2, b"block") {
        let kind = kind_at(words, 3)?;
        let length = number_at(words, 4, u32::MAX as u64, Wanted::Length)? as u32;
        ends_at(words, 5)?;
        return Ok(TextLine::Begins(Block {
            base: a,
            length,
            kind,
        }));
    }
    if is_at(words, 2, b"waits") {
        let waiter = waiter_at(words, 3, Wanted::Waiter)?;
        ends_at(words, 4)?;
        return Ok(TextLine::Waits(a, waiter));
    }
    value_line(words, a)
}

// Reads a line about the value of a cell.
fn value_line(words: &[&[u8]], a: u32) -> Result<TextLine, Bad> {
    let is_clashed = is_at(words, 2, b"clashed");
    if !is_clashed && !is_at(words, 2, b"full") {
        return Err(Bad {
            at: 2,
            wanted: Wanted::State,
        });
    }
    let value = number_at(words, 3, u64::MAX, Wanted::Value)?;
    ends_at(words, 4)?;
    Ok(if is_clashed {
        TextLine::Clashed(a, value)
    } else {
        TextLine::Full(a, value)
    })
}

// Reads a line about an element's window.
fn base_line(words: &[&[u8]]) -> Result<TextLine, Bad> {
    let element = number_at(words, 1, u16::MAX as u64, Wanted::Element)? as u16;
    if !is_at(words, 2, b"base") {
        return Err(Bad {
            at: 2,
            wanted: Wanted::BaseWord,
        });
    }
    let base = number_at(words, 3, LAST.saturating_add(1), Wanted::Base)?;
    ends_at(words, 4)?;
    Ok(TextLine::Base(element, base))
}

// Reads a line about an entry.
fn entry_line(alloc: Global, words: &[&[u8]]) -> Result<TextLine, Bad> {
    let who = waiter_at(words, 1, Wanted::Next)?;
    let arrow = arrow_in(words);
    let op = op_before(alloc, words, arrow)?;
    if arrow >= words.len() {
        return Err(Bad {
            at: arrow,
            wanted: Wanted::Arrow,
        });
    }
    let entry = entry_from(words, arrow.saturating_add(1))?;
    Ok(TextLine::Entry(who, Kept { op, entry }))
}

/// Reads a line behind the head from its words.
pub(crate) fn text_line(alloc: Global, words: &[&[u8]]) -> Result<TextLine, Bad> {
    if is_at(words, 0, b"cell") {
        let a = number_at(words, 1, u32::MAX as u64, Wanted::Address)?;
        cell_line(words, a as u32)
    } else if is_at(words, 0, b"element") {
        base_line(words)
    } else if is_at(words, 0, b"entry") {
        entry_line(alloc, words)
    } else if is_at(words, 0, b"end") {
        ends_at(words, 1)?;
        Ok(TextLine::End)
    } else {
        Err(Bad {
            at: 0,
            wanted: Wanted::Start,
        })
    }
}
