//! The lines of a script as values, and how each is said.
ghost use Rattle.std.specs.Prelude.{◌≡◌, ◌++◌, OnOk, Some, string_bytes, codes};
ghost use Rattle.im_text.specs.Objects.{number_of_entry, word_of_entry};
ghost use Rattle.im_text.specs.Printing.{now_line, refused_line, told_line};
ghost use Rattle.im_text.specs.Said.{done_text, glance_object, glance_start, glance_text, line_words, object_of};
ghost use Rattle.im_text.specs.Said.{quiet_of, refusal_end, refusal_object, refusal_start, reply_object, reply_start};
ghost use Rattle.im_text.specs.Said.{said_in, seen_member, seen_text, told_name};

use crate::objects::{add_number, add_object_start, entry_parts};
use crate::replies::{Waited, add_entry};
use im_types::{Entry, Refusal};
use std::alloc::AllocError;

/// How lines are said.
#[derive(Clone, Copy, Debug, PartialEq, Eq)]
pub enum Style {
    /// In words.
    Text,
    /// Only that of a refusal, in words.
    Quiet,
    /// Each as an object of JSON.
    Json,
}

/// A line that is printed of a script.
#[derive(Clone, Copy, Debug, PartialEq, Eq)]
pub enum OutputLine {
    /// `K.N REPLY`: a request with its reply.
    Reply(Waited),
    /// `K.N now REPLY`: a request that had to wait, with the reply that was last kept.
    Now(Waited),
    /// `K.N done`: a request of this element and number was confirmed.
    Done(u16, u64),
    /// `K glance A value V` or `K glance A none`: what this element saw at this address.
    Glance(u16, u32, Option<u64>),
    /// `refused N NAME`.
    Refused(Refusal),
}

// ---- in words

// Adds the line `K.N REPLY` for a request that was served.
fn add_line(out: &mut String, element: u16, number: u64, entry: Entry) -> Result<(), AllocError>
    ensures { OnOk result (string_bytes out.new ≡ string_bytes out.old ++ told_line element number entry) }
{
    write!(out, "{element}.{number} ")?; // K.N
    add_entry(out, entry)?;
    out.push_str("\n")
}

// Adds the line `K.N now REPLY` for a request that had to wait.
fn add_now(out: &mut String, waited: Waited) -> Result<(), AllocError>
    ensures { OnOk result (string_bytes out.new ≡ string_bytes out.old ++ now_line (Some waited)) }
{
    let element = waited.element;
    let number = waited.number;
    write!(out, "{element}.{number} now ")?;
    add_entry(out, waited.entry)?;
    out.push_str("\n")
}

// Adds the line `K.N done`.
fn add_done(out: &mut String, element: u16, number: u64) -> Result<(), AllocError>
    ensures { OnOk result (string_bytes out.new ≡ string_bytes out.old ++ done_text element number) }
{
    writeln!(out, "{element}.{number} done")
}

// Adds what was seen of a cell.
fn add_seen(out: &mut String, value: Option<u64>) -> Result<(), AllocError>
    ensures { OnOk result (string_bytes out.new ≡ string_bytes out.old ++ seen_text value) }
{
    match value {
        Some(value) => write!(out, "value {value}"),
        None => out.push_str("none"),
    }
}

// Adds the line of a glance.
fn add_glance(
    out: &mut String,
    element: u16,
    address: u32,
    value: Option<u64>,
) -> Result<(), AllocError>
    ensures { OnOk result (string_bytes out.new ≡ string_bytes out.old ++ glance_text element address value) }
{
    write!(out, "{element} glance {address} ")?;
    add_seen(out, value)?;
    out.push_str("\n")
}

// The name of a refusal.
fn name_of(refusal: Refusal) -> &'static str
    ensures { result.now ≡ told_name refusal }
{
    match refusal {
        Refusal::Gap => "Gap",
        Refusal::Forgotten => "Forgotten",
        Refusal::WindowFull => "WindowFull",
        Refusal::Mismatch => "Mismatch",
        Refusal::NoElement => "NoElement",
        Refusal::NotAnswered => "NotAnswered",
        Refusal::JournalFull => "JournalFull",
        Refusal::Device => "Device",
        Refusal::Failed => "Failed",
        Refusal::NoMemory => "NoMemory",
        Refusal::TraceFull => "TraceFull",
        Refusal::WrongLength => "WrongLength",
        Refusal::NoHeader => "NoHeader",
        Refusal::BadHeader => "BadHeader",
        Refusal::BadPage => "BadPage",
        Refusal::BadRecord => "BadRecord",
        Refusal::BadLimits => "BadLimits",
        Refusal::BadScript => "BadScript",
        Refusal::Stalled => "Stalled",
        Refusal::OffPlan => "OffPlan",
        Refusal::OldVersion => "OldVersion",
        Refusal::NotBlank => "NotBlank",
        Refusal::BadPlan => "BadPlan",
        Refusal::PaneGone => "PaneGone",
    }
}

// Adds the line of a refusal.
fn add_refused(out: &mut String, refusal: Refusal) -> Result<(), AllocError>
    ensures { OnOk result (string_bytes out.new ≡ string_bytes out.old ++ refused_line refusal (told_name refusal)) }
{
    let number = refusal.number();
    let name = name_of(refusal);
    writeln!(out, "refused {number} {name}")
}

// Adds a line in words.
fn add_words(out: &mut String, line: OutputLine) -> Result<(), AllocError>
    ensures { OnOk result (string_bytes out.new ≡ string_bytes out.old ++ line_words line) }
{
    match line {
        OutputLine::Reply(it) => add_line(out, it.element, it.number, it.entry),
        OutputLine::Now(it) => add_now(out, it),
        OutputLine::Done(element, number) => add_done(out, element, number),
        OutputLine::Glance(element, address, value) => add_glance(out, element, address, value),
        OutputLine::Refused(refusal) => add_refused(out, refusal),
    }
}

// ---- as objects

// Adds the object of a reply, as far as the reply's word.
fn add_reply_start(
    out: &mut String,
    who: (u16, u64),
    now: &str,
    word: &str,
) -> Result<(), AllocError>
    ensures { OnOk result (string_bytes out.new ≡ string_bytes out.old ++ reply_start who.0 who.1 now.now word.now) }
{
    add_object_start(out, who.0, who.1)?;
    write!(out, ",\"now\":{now},\"reply\":\"{word}\"")
}

// Adds the object of a reply. A value or a base stands under its word.
fn add_reply_object(
    out: &mut String,
    who: (u16, u64),
    now: &str,
    word: &str,
    value: Option<u64>,
) -> Result<(), AllocError>
    ensures { OnOk result (string_bytes out.new ≡ string_bytes out.old
        ++ reply_object who.0 who.1 now.now word.now value) }
{
    add_reply_start(out, who, now, word)?;
    add_number(out, word, value)?;
    out.push_str("}\n")
}

// Adds the object of a request with its entry.
fn add_entry_object(out: &mut String, it: Waited, now: &str) -> Result<(), AllocError>
    ensures { OnOk result (string_bytes out.new ≡ string_bytes out.old ++ reply_object it.element it.number now.now
        (word_of_entry it.entry) (number_of_entry it.entry)) }
{
    let (word, value) = entry_parts(it.entry);
    add_reply_object(out, (it.element, it.number), now, word, value)
}

// Adds the object of a glance, as far as what was seen.
fn add_glance_start(out: &mut String, element: u16, address: u32) -> Result<(), AllocError>
    ensures { OnOk result (string_bytes out.new ≡ string_bytes out.old ++ glance_start element address) }
{
    write!(
        out,
        "{{\"glance\":{address},\"element\":{element},\"value\":"
    )
}

// Adds what was seen of a cell, if anything was.
fn add_seen_member(out: &mut String, value: Option<u64>) -> Result<(), AllocError>
    ensures { OnOk result (string_bytes out.new ≡ string_bytes out.old ++ seen_member value) }
{
    match value {
        Some(value) => write!(out, "\"{value}\""),
        None => out.push_str("null"),
    }
}

// Adds the object of a glance.
fn add_glance_object(
    out: &mut String,
    element: u16,
    address: u32,
    value: Option<u64>,
) -> Result<(), AllocError>
    ensures { OnOk result (string_bytes out.new ≡ string_bytes out.old ++ glance_object element address value) }
{
    add_glance_start(out, element, address)?;
    add_seen_member(out, value)?;
    out.push_str("}\n")
}

// Adds the number of a refusal, with which its object begins.
fn add_refusal_start(out: &mut String, number: u8) -> Result<(), AllocError>
    ensures { OnOk result (string_bytes out.new ≡ string_bytes out.old ++ refusal_start number) }
{
    write!(out, "{{\"refused\":{{\"code\":{number}")
}

// Adds the name of a refusal, with which its object ends.
fn add_refusal_end(out: &mut String, name: &str) -> Result<(), AllocError>
    ensures { OnOk result (string_bytes out.new ≡ string_bytes out.old ++ refusal_end name.now) }
{
    write!(out, ",\"name\":\"{name}\"}}}}\n")
}

// Adds the object of a refusal.
fn add_refusal_object(out: &mut String, number: u8, name: &str) -> Result<(), AllocError>
    ensures { OnOk result (string_bytes out.new ≡ string_bytes out.old ++ refusal_object number name.now) }
{
    add_refusal_start(out, number)?;
    add_refusal_end(out, name)
}

// Adds a line as an object.
fn add_object(out: &mut String, line: OutputLine) -> Result<(), AllocError>
    ensures { OnOk result (string_bytes out.new ≡ string_bytes out.old ++ object_of line) }
{
    match line {
        OutputLine::Reply(it) => add_entry_object(out, it, "false"),
        OutputLine::Now(it) => add_entry_object(out, it, "true"),
        OutputLine::Done(element, number) => {
            add_reply_object(out, (element, number), "false", "done", None)
        }
        OutputLine::Glance(element, address, value) => {
            add_glance_object(out, element, address, value)
        }
        OutputLine::Refused(refusal) => add_refusal_object(out, refusal.number(), name_of(refusal)),
    }
}

// ---- in a style

// Adds a line where only refusals are told.
fn add_quiet(out: &mut String, line: OutputLine) -> Result<(), AllocError>
    ensures { OnOk result (string_bytes out.new ≡ string_bytes out.old ++ quiet_of line) }
{
    match line {
        OutputLine::Refused(refusal) => add_refused(out, refusal),
        OutputLine::Reply(_) | OutputLine::Now(_) | OutputLine::Done(_, _) => Ok(()),
        OutputLine::Glance(_, _, _) => Ok(()),
    }
}

/// Adds a line in a style.
pub(crate) fn add_said(out: &mut String, style: Style, line: OutputLine) -> Result<(), AllocError>
    ensures { OnOk result (string_bytes out.new ≡ string_bytes out.old ++ said_in style line) }
{
    match style {
        Style::Text => add_words(out, line),
        Style::Quiet => add_quiet(out, line),
        Style::Json => add_object(out, line),
    }
}

/// Makes a line in words.
pub fn make_words(out: &mut String, line: OutputLine) -> Result<(), AllocError>
    ensures { OnOk result (string_bytes out.new ≡ line_words line) }
{
    out.clear();
    add_words(out, line)
}

/// Makes the line `confirmed K.N REPLY`, for an entry of an earlier script that is confirmed.
pub fn make_confirmed(out: &mut String, it: Waited) -> Result<(), AllocError>
    ensures { OnOk result (string_bytes out.new ≡ codes "confirmed " ++ told_line it.element it.number it.entry) }
{
    out.clear();
    out.push_str("confirmed ")?;
    add_line(out, it.element, it.number, it.entry)
}
