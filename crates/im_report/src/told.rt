//! The lines of a report that say something of a memory, each of words or one object of JSON.
ghost use Rattle.std.specs.Prelude.{◌≡◌, ◌++◌, OnOk, string_bytes, codes};
ghost use Rattle.im_types.specs.Types.{waiters_at};
ghost use Rattle.im_report.specs.Report.{element_line, entry_start, mark_of, told_block, told_kept, told_value};
ghost use Rattle.im_report.specs.Report.{told_waiting, waiter_object, waiter_objects, waiter_text, waiters_text};
ghost use Rattle.im_report.specs.Report.{waiting_start};

use crate::notation::Notation;
use crate::stat::{add_member, add_text, add_three};
use im_memory::Memory;
use im_text::{add_entry, add_op, kind_text};
use im_types::{Block, Kept, Waiter};
use std::alloc::AllocError;

/// Adds a block.
pub(crate) fn tell_block(
    out: &mut String,
    notation: Notation,
    block: Block,
) -> Result<(), AllocError>
    ensures { OnOk result (string_bytes out.new ≡ string_bytes out.old ++ told_block notation block) }
{
    let base = block.base;
    let kind = kind_text(block.kind);
    let length = block.length;
    match notation {
        Notation::Lines => writeln!(out, "block {base} {kind} {length}"),
        Notation::Json => writeln!(
            out,
            "{{\"block\":{base},\"kind\":\"{kind}\",\"length\":{length}}}"
        ),
    }
}

// Adds a request that waits.
fn add_waiter(out: &mut String, waiter: Waiter) -> Result<(), AllocError>
    ensures { OnOk result (string_bytes out.new ≡ string_bytes out.old ++ waiter_text waiter) }
{
    let Waiter { element, number } = waiter;
    write!(out, " {element}.{number}")
}

// Adds the requests that wait at a cell, in their order.
fn add_waiters(out: &mut String, memory: &Memory, a: u32) -> Result<(), AllocError>
    ensures { OnOk result (string_bytes out.new ≡ string_bytes out.old
        ++ waiters_text (waiters_at memory.now.contents.cells a)) }
{
    for waiter in memory.waiters(a) {
        add_waiter(out, waiter)?;
    }
    Ok(())
}

// Adds a request that waits as an object.
fn add_waiter_object(out: &mut String, waiter: Waiter) -> Result<(), AllocError>
    ensures { OnOk result (string_bytes out.new ≡ string_bytes out.old ++ waiter_object waiter) }
{
    let Waiter { element, number } = waiter;
    add_member(out, "{\"element\":", element as u64)?;
    add_member(out, ",\"number\":\"", number)?;
    add_text(out, "\"}")
}

// What stands before the first object of a list, and before another one.
fn mark_of(is_first: bool) -> &'static str
    ensures { result.now ≡ mark_of is_first }
{
    if is_first { "[" } else { "," }
}

// Adds a request that waits as an object of a list, behind its mark.
fn add_marked(out: &mut String, is_first: bool, waiter: Waiter) -> Result<(), AllocError>
    ensures { OnOk result (string_bytes out.new ≡ string_bytes out.old
        ++ (mark_of is_first ++ waiter_object waiter)) }
{
    add_text(out, mark_of(is_first))?;
    add_waiter_object(out, waiter)
}

// Adds the requests that wait at a cell as objects, in their order: the list but for its last bracket.
fn add_waiter_objects(out: &mut String, memory: &Memory, a: u32) -> Result<(), AllocError>
    ensures { OnOk result (string_bytes out.new ≡ string_bytes out.old
        ++ waiter_objects (codes "[") (waiters_at memory.now.contents.cells a)) }
{
    let mut is_first = true;
    for waiter in memory.waiters(a) {
        add_marked(out, is_first, waiter)?;
        is_first = false;
    }
    Ok(())
}

// Adds a cell that somebody waits for, in words.
fn add_waiting(out: &mut String, memory: &Memory, a: u32) -> Result<(), AllocError>
    ensures { OnOk result (string_bytes out.new ≡ string_bytes out.old
        ++ told_waiting Notation.Lines a (waiters_at memory.now.contents.cells a)) }
{
    write!(out, "cell {a} waiting")?;
    add_waiters(out, memory, a)?;
    out.push_str("\n")
}

// Adds the object of a cell that somebody waits for, as far as the requests.
fn add_waiting_start(out: &mut String, a: u32) -> Result<(), AllocError>
    ensures { OnOk result (string_bytes out.new ≡ string_bytes out.old ++ waiting_start a) }
{
    write!(out, "{{\"cell\":{a},\"state\":\"waiting\",\"waiters\":")
}

// Adds a cell that somebody waits for, as an object.
fn add_waiting_object(out: &mut String, memory: &Memory, a: u32) -> Result<(), AllocError>
    ensures { OnOk result (string_bytes out.new ≡ string_bytes out.old
        ++ told_waiting Notation.Json a (waiters_at memory.now.contents.cells a)) }
{
    add_waiting_start(out, a)?;
    add_waiter_objects(out, memory, a)?;
    add_text(out, "]}\n")
}

/// Adds a cell that somebody waits for.
pub(crate) fn tell_waiting(
    out: &mut String,
    notation: Notation,
    memory: &Memory,
    a: u32,
) -> Result<(), AllocError>
    ensures { OnOk result (string_bytes out.new ≡ string_bytes out.old
        ++ told_waiting notation a (waiters_at memory.now.contents.cells a)) }
{
    match notation {
        Notation::Lines => add_waiting(out, memory, a),
        Notation::Json => add_waiting_object(out, memory, a),
    }
}

/// Adds a cell with a value, and the word for its state.
pub(crate) fn tell_value(
    out: &mut String,
    notation: Notation,
    a: u32,
    state: &str,
    value: u64,
) -> Result<(), AllocError>
    ensures { OnOk result (string_bytes out.new ≡ string_bytes out.old ++ told_value notation a state.now value) }
{
    match notation {
        Notation::Lines => writeln!(out, "cell {a} {state} {value}"),
        Notation::Json => writeln!(
            out,
            "{{\"cell\":{a},\"state\":\"{state}\",\"value\":\"{value}\"}}"
        ),
    }
}

// Adds an entry in words.
fn add_kept(out: &mut String, element: u16, number: u64, kept: Kept) -> Result<(), AllocError>
    ensures { OnOk result (string_bytes out.new ≡ string_bytes out.old
        ++ told_kept Notation.Lines element number kept) }
{
    write!(out, "entry {element}.{number} ")?;
    add_op(out, kept.op)?;
    out.push_str(" -> ")?;
    add_entry(out, kept.entry)?;
    out.push_str("\n")
}

// Adds the object of an entry, as far as its operation.
fn add_entry_start(out: &mut String, element: u16, number: u64) -> Result<(), AllocError>
    ensures { OnOk result (string_bytes out.new ≡ string_bytes out.old ++ entry_start element number) }
{
    write!(
        out,
        "{{\"entry\":\"{number}\",\"of\":{element},\"operation\":\""
    )
}

// Adds an entry as an object.
fn add_kept_object(
    out: &mut String,
    element: u16,
    number: u64,
    kept: Kept,
) -> Result<(), AllocError>
    ensures { OnOk result (string_bytes out.new ≡ string_bytes out.old
        ++ told_kept Notation.Json element number kept) }
{
    add_entry_start(out, element, number)?;
    add_op(out, kept.op)?;
    add_text(out, "\",\"reply\":\"")?;
    add_entry(out, kept.entry)?;
    add_text(out, "\"}\n")
}

/// Adds an entry that is kept under an element's number.
pub(crate) fn tell_kept(
    out: &mut String,
    notation: Notation,
    element: u16,
    number: u64,
    kept: Kept,
) -> Result<(), AllocError>
    ensures { OnOk result (string_bytes out.new ≡ string_bytes out.old
        ++ told_kept notation element number kept) }
{
    match notation {
        Notation::Lines => add_kept(out, element, number, kept),
        Notation::Json => add_kept_object(out, element, number, kept),
    }
}

/// Adds the base of an element's window, and the number of its entries.
pub(crate) fn tell_element(
    out: &mut String,
    notation: Notation,
    element: u16,
    base: u64,
    kept: u64,
) -> Result<(), AllocError>
    ensures { OnOk result (string_bytes out.new ≡ string_bytes out.old
        ++ element_line notation element base kept) }
{
    match notation {
        Notation::Lines => writeln!(out, "element {element} base {base} kept {kept}"),
        Notation::Json => add_three(
            out,
            ("{\"element\":", element as u64),
            (",\"base\":\"", base),
            ("\",\"kept\":", kept),
            "}\n",
        ),
    }
}
