//! Says what the records of an area's cells and waiter nodes say, each by itself. A record that spells nothing is
//! marked.
ghost use Rattle.std.specs.Prelude.{◌≡◌, ◌++◌, take, drop, OnOk, string_bytes};
ghost use Rattle.im_types.specs.Types.{layout_of, sizes_of};
ghost use Rattle.{im_formats.specs.Reading.read_cell, im_text.specs.Texts.texts_below};
ghost use Rattle.im_dump.specs.Salvage.{block_before, block_named, damaged_line, is_block, named_line, next_text};
ghost use Rattle.im_dump.specs.Salvage.{node_told, record_there, record_told, tag_line, told_cell, told_node};
ghost use Rattle.im_dump.specs.Salvage.{within_line};
ghost use Rattle.im_types.specs.Layout as layout;

use crate::writing::add_begun;
use im_records::{read_cell, read_node};
use im_text::kind_text;
use im_types::layout::{CELL_RECORD, NODE_RECORD, Version};
use im_types::{Block, CellRecord, Limits, NONE, NodeRecord, PresenceTag, WINDOW, WINDOW_1};
use std::alloc::AllocError;

/// The bytes behind the first ones.
pub(crate) fn behind(bytes: &[u8], many: usize) -> &[u8]
    ensures { result.now ≡ drop many bytes.now }
{
    &bytes[many.min(bytes.len())..]
}

/// The bytes of a record at a place, as far as they are there.
pub(crate) fn record_in(part: &[u8], at: usize, size: usize) -> &[u8]
    ensures { result.now ≡ take size (drop at part.now) }
{
    let rest = behind(part, at);
    &rest[..size.min(rest.len())]
}

/// Adds the line of a record that can't be read.
pub(crate) fn add_damaged(out: &mut String, n: u32, word: &str) -> Result<(), AllocError>
    ensures { OnOk result (string_bytes out.new ≡ string_bytes out.old ++ damaged_line word.now n) }
{
    writeln!(out, "{word} {n} damaged")
}

// ---- cells

// The block that a record names.
fn block_named(cell: Option<CellRecord>) -> Option<Block>
    ensures { result ≡ block_named cell }
{
    match cell {
        Some(CellRecord::Held { block, .. }) => Some(block),
        _ => None,
    }
}

// Whether that is this block.
fn is_block(named: Option<Block>, block: Block) -> bool
    ensures { result ≡ is_block named block }
{
    match named {
        Some(it) => it.base == block.base && it.length == block.length && it.kind == block.kind,
        None => false,
    }
}

// Adds the line of a cell that isn't the first one of the block that its record names.
fn add_within(out: &mut String, a: u32, block: Block) -> Result<(), AllocError>
    ensures { OnOk result (string_bytes out.new ≡ string_bytes out.old ++ within_line a block) }
{
    let Block { base, length, kind } = block;
    let kind = kind_text(kind);
    writeln!(out, "cell {a} of block {base} {kind} {length}")
}

// Adds the line of the block that a record names, unless the record before names it too.
fn add_named(
    out: &mut String,
    a: u32,
    before: Option<Block>,
    block: Block,
) -> Result<(), AllocError>
    ensures { OnOk result (string_bytes out.new ≡ string_bytes out.old ++ named_line a before block) }
{
    if block.base == a {
        return add_begun(out, a, Some(block));
    }
    if is_block(before, block) {
        return Ok(());
    }
    add_within(out, a, block)
}

// Adds the line of what a record says that its cell has.
fn add_tag(out: &mut String, a: u32, tag: PresenceTag) -> Result<(), AllocError>
    ensures { OnOk result (string_bytes out.new ≡ string_bytes out.old ++ tag_line a tag) }
{
    match tag {
        PresenceTag::Empty => Ok(()),
        PresenceTag::Waiting { first, last } => {
            writeln!(out, "cell {a} waits nodes {first} to {last}")
        }
        PresenceTag::Full(value) => writeln!(out, "cell {a} full {value}"),
        PresenceTag::Clashed(value) => writeln!(out, "cell {a} clashed {value}"),
    }
}

// Adds what the record of a cell says.
fn add_cell(
    out: &mut String,
    a: u32,
    before: Option<Block>,
    cell: Option<CellRecord>,
) -> Result<(), AllocError>
    ensures { OnOk result (string_bytes out.new ≡ string_bytes out.old ++ record_told a before cell) }
{
    match cell {
        None => add_damaged(out, a, "cell"),
        Some(CellRecord::Free { .. }) => Ok(()),
        Some(CellRecord::Held { block, tag }) => {
            add_named(out, a, before, block)?;
            add_tag(out, a, tag)
        }
    }
}

// The record of a cell.
fn cell_in(part: &[u8], a: u32) -> Option<CellRecord>
    ensures { result ≡ read_cell (record_there layout.cell_record_bytes part.now a) }
{
    read_cell(record_in(part, CELL_RECORD * a as usize, CELL_RECORD))
}

// The block that the record before that of a cell names.
fn block_before(part: &[u8], a: u32) -> Option<Block>
    ensures { result ≡ block_before part.now a }
{
    if a == 0 {
        return None;
    }
    block_named(cell_in(part, a - 1))
}

// Adds what the record of the cell at an address says.
fn add_told_cell(out: &mut String, part: &[u8], a: u32) -> Result<(), AllocError>
    ensures { OnOk result (string_bytes out.new ≡ string_bytes out.old ++ told_cell part.now a) }
{
    add_cell(out, a, block_before(part, a), cell_in(part, a))
}

/// Adds what the records of an area's cells say, by address.
pub(crate) fn add_told_cells(out: &mut String, part: &[u8], cells: u32) -> Result<(), AllocError>
    ensures { OnOk result (string_bytes out.new ≡ string_bytes out.old ++ texts_below (told_cell part.now) cells) }
{
    for a in 0..cells {
        add_told_cell(out, part, a)?;
    }
    Ok(())
}

// ---- waiter nodes

// Adds which node follows in a list.
fn add_next(out: &mut String, next: u32) -> Result<(), AllocError>
    ensures { OnOk result (string_bytes out.new ≡ string_bytes out.old ++ next_text next) }
{
    if next == NONE {
        return out.push_str(" last");
    }
    write!(out, " next {next}")
}

// Adds what the record of a waiter node says.
fn add_node(out: &mut String, n: u32, node: Option<NodeRecord>) -> Result<(), AllocError>
    ensures { OnOk result (string_bytes out.new ≡ string_bytes out.old ++ node_told n node) }
{
    match node {
        None => add_damaged(out, n, "node"),
        Some(NodeRecord::Free { .. }) => Ok(()),
        Some(NodeRecord::Listed { next, waiter }) => {
            let element = waiter.element;
            let number = waiter.number;
            write!(out, "node {n} {element}.{number}")?;
            add_next(out, next)?;
            out.push_str("\n")
        }
    }
}

// Adds what the record of the waiter node with a number says.
fn add_told_node(out: &mut String, part: &[u8], n: u32) -> Result<(), AllocError>
    ensures { OnOk result (string_bytes out.new ≡ string_bytes out.old ++ told_node part.now n) }
{
    let record = record_in(part, NODE_RECORD * n as usize, NODE_RECORD);
    add_node(out, n, read_node(record))
}

/// The number of waiter nodes of an area.
pub(crate) fn node_count(version: Version, limits: Limits) -> u32
    ensures { result ≡ layout.node_count (layout_of version) (sizes_of limits) }
{
    match version {
        Version::One => WINDOW_1 as u32 * limits.elements as u32,
        Version::Two => WINDOW as u32 * limits.elements as u32,
    }
}

/// Adds what the records of an area's waiter nodes say, by number.
pub(crate) fn add_told_nodes(out: &mut String, part: &[u8], nodes: u32) -> Result<(), AllocError>
    ensures { OnOk result (string_bytes out.new ≡ string_bytes out.old ++ texts_below (told_node part.now) nodes) }
{
    for n in 0..nodes {
        add_told_node(out, part, n)?;
    }
    Ok(())
}
