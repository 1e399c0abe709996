//! The answers to lines.
ghost use Rattle.std.specs.Prelude.{◌≡◌, ◌++◌, OnOk, string_bytes, codes, decimal};
ghost use Rattle.im_text.specs.{Printing.refused_line, Printing.told_line, Texts.line_feed};
ghost use Rattle.im_dialogue.specs.Answers.{about_line, answer_text, backup_line, element_refused, kept_line};
ghost use Rattle.im_dialogue.specs.Answers.{operation_line, request_refused, served_line, turn_text, window_line};
ghost use Rattle.im_dialogue.specs.Backups.{bytes_of};

use crate::about::About;
use crate::backup_name::BackupName;
use crate::backups::BackupFault;
use crate::look::Look;
use crate::showing::{add_bounds, add_look, look_refused};
use im_checkpoint::TurnDone;
use im_memory::Memory;
use im_script::LineFault;
use im_text::{add_entry, add_op};
use im_types::{Command, Entry, Kept, Outcome, Refusal, Waiter};
use std::alloc::AllocError;

/// The answer to a line of a dialogue.
#[derive(Clone, Copy, Debug, PartialEq, Eq)]
pub enum LineAnswer {
    /// To a command: its outcome or its refusal.
    Served(Command, Result<Outcome, Refusal>),
    /// To a line that only looks: what the memory shows.
    Looked(Look),
    /// To `window E`: the first number that is kept, and the next one.
    Window(u16, Result<(u64, u64), Refusal>),
    /// To `room`: how many more commands there is room for.
    Room(u32),
    /// To `turn`: what was done.
    Turned(TurnDone),
    /// To `count`: how many commands were accepted.
    Count(u64),
    /// To `about`: what the image is, and how far it has come.
    About(About),
    /// To `backup NAME`: how many commands the copy has, or why it isn't kept.
    Backup(BackupName, Result<u64, BackupFault>),
    /// To a line that isn't in the grammar: its number, from 1, and where it goes wrong.
    Wrong(u64, LineFault),
}

impl LineAnswer {
    /// Returns the refusal of the answer on this memory, if it is one.
    pub fn refusal(&self, memory: &Memory) -> Option<Refusal> {
        match *self {
            LineAnswer::Served(_, Err(refusal)) => Some(refusal),
            LineAnswer::Looked(look) => look_refused(memory, look),
            LineAnswer::Window(_, Err(refusal)) => Some(refusal),
            _ => None,
        }
    }
}

// Adds `refused NUMBER NAME`.
fn add_refused(out: &mut String, refusal: Refusal, name: &str) -> Result<(), AllocError>
    ensures { OnOk result (string_bytes out.new ≡ string_bytes out.old ++ refused_line refusal name.now) }
{
    let number = refusal.number();
    write!(out, "refused {number} {name}\n")
}

/// Adds `E.N refused NUMBER NAME`.
pub(crate) fn add_request_refused(
    out: &mut String,
    who: Waiter,
    refusal: Refusal,
    name: &str,
) -> Result<(), AllocError>
    ensures { OnOk result (string_bytes out.new
        ≡ string_bytes out.old ++ request_refused who.element who.number refusal name.now) }
{
    let element = who.element;
    let number = who.number;
    write!(out, "{element}.{number} ")?;
    add_refused(out, refusal, name)
}

// Adds `E refused NUMBER NAME`.
fn add_element_refused(
    out: &mut String,
    element: u16,
    refusal: Refusal,
    name: &str,
) -> Result<(), AllocError>
    ensures { OnOk result (string_bytes out.new ≡ string_bytes out.old ++ element_refused element refusal name.now) }
{
    write!(out, "{element} ")?;
    add_refused(out, refusal, name)
}

// Adds `E.N REPLY`.
fn add_told(out: &mut String, who: Waiter, entry: Entry) -> Result<(), AllocError>
    ensures { OnOk result (string_bytes out.new ≡ string_bytes out.old ++ told_line who.element who.number entry) }
{
    let element = who.element;
    let number = who.number;
    write!(out, "{element}.{number} ")?;
    add_entry(out, entry)?;
    out.push_str("\n")
}

/// Adds what is kept for a request, or why nothing is kept.
pub(crate) fn add_kept(
    out: &mut String,
    who: Waiter,
    answer: Result<Entry, Refusal>,
    name: &str,
) -> Result<(), AllocError>
    ensures { OnOk result (string_bytes out.new
        ≡ string_bytes out.old ++ kept_line who.element who.number name.now answer) }
{
    match answer {
        Ok(entry) => add_told(out, who, entry),
        Err(refusal) => add_request_refused(out, who, refusal, name),
    }
}

/// Adds `E.N entry OPERATION -> REPLY`.
pub(crate) fn add_operation(out: &mut String, who: Waiter, kept: Kept) -> Result<(), AllocError>
    ensures { OnOk result (string_bytes out.new
        ≡ string_bytes out.old ++ operation_line who.element who.number kept) }
{
    let element = who.element;
    let number = who.number;
    write!(out, "{element}.{number} entry ")?;
    add_op(out, kept.op)?;
    out.push_str(" -> ")?;
    add_entry(out, kept.entry)?;
    out.push_str("\n")
}

// Adds `E confirmed UPTO`.
fn add_confirmed(out: &mut String, element: u16, upto: u64) -> Result<(), AllocError>
    ensures { OnOk result (string_bytes out.new
        ≡ string_bytes out.old ++ (decimal element ++ codes " confirmed " ++ decimal upto ++ line_feed)) }
{
    write!(out, "{element} confirmed {upto}\n")
}

// Adds the answer to a command.
fn add_served(
    out: &mut String,
    command: Command,
    answer: Result<Outcome, Refusal>,
    name: &str,
) -> Result<(), AllocError>
    ensures { OnOk result (string_bytes out.new ≡ string_bytes out.old ++ served_line name.now command answer) }
{
    match command {
        Command::Request(request) => {
            let who = Waiter {
                element: request.element,
                number: request.number,
            };
            match answer {
                Ok(Outcome::Entry(entry)) => add_kept(out, who, Ok(entry), name),
                Ok(Outcome::Confirmed) => Ok(()), // No request is answered so.
                Err(refusal) => add_kept(out, who, Err(refusal), name),
            }
        }
        Command::Confirm { element, upto } => match answer {
            Ok(_) => add_confirmed(out, element, upto),
            Err(refusal) => add_element_refused(out, element, refusal, name),
        },
    }
}

// Adds `E window BASE NEXT`, or why there is no window.
fn add_window(
    out: &mut String,
    element: u16,
    answer: Result<(u64, u64), Refusal>,
    name: &str,
) -> Result<(), AllocError>
    ensures { OnOk result (string_bytes out.new ≡ string_bytes out.old ++ window_line element name.now answer) }
{
    match answer {
        Ok(window) => {
            add_bounds(out, element, window)?;
            out.push_str("\n")
        }
        Err(refusal) => add_element_refused(out, element, refusal, name),
    }
}

// Adds `version V cells C`.
fn add_version(out: &mut String, about: About) -> Result<(), AllocError>
    ensures { OnOk result (string_bytes out.new ≡ string_bytes out.old
        ++ (codes "version " ++ decimal about.version ++ codes " cells " ++ decimal about.cells)) }
{
    let version = about.version;
    let cells = about.cells;
    write!(out, "version {version} cells {cells}")
}

// Adds what `about` says about an image.
fn add_about(out: &mut String, about: About) -> Result<(), AllocError>
    ensures { OnOk result (string_bytes out.new ≡ string_bytes out.old ++ about_line about) }
{
    let elements = about.elements;
    let slots = about.slots;
    let count = about.count;
    let room = about.room;
    out.push_str("about ")?;
    add_version(out, about)?;
    write!(out, " elements {elements} slots {slots}")?;
    write!(out, " count {count} room {room}\n")
}

// Adds what a turn did.
fn add_turn(out: &mut String, done: TurnDone) -> Result<(), AllocError>
    ensures { OnOk result (string_bytes out.new ≡ string_bytes out.old ++ turn_text done) }
{
    match done {
        TurnDone::Idle => out.push_str("turn idle"),
        TurnDone::Began => out.push_str("turn began"),
        TurnDone::Page(page) => write!(out, "turn page {page}"),
        TurnDone::Synced => out.push_str("turn synced"),
        TurnDone::InForce => out.push_str("turn inforce"),
        TurnDone::Swept => out.push_str("turn swept"),
    }
}

// Adds `backup NAME`.
fn add_backup_name(out: &mut String, name: BackupName) -> Result<(), AllocError>
    ensures { OnOk result (string_bytes out.new ≡ string_bytes out.old ++ codes "backup " ++ bytes_of name) }
{
    out.push_str("backup ")?;
    match name.text() {
        Some(text) => out.push_str(text),
        None => Err(AllocError), // No name is so.
    }
}

// Adds `backup NAME count N`, or why the copy isn't kept.
fn add_backup(
    out: &mut String,
    name: BackupName,
    kept: Result<u64, BackupFault>,
    words: &str,
) -> Result<(), AllocError>
    ensures { OnOk result (string_bytes out.new ≡ string_bytes out.old ++ backup_line name words.now kept) }
{
    add_backup_name(out, name)?;
    match kept {
        Ok(count) => write!(out, " count {count}\n"),
        Err(_) => write!(out, " refused: {words}\n"),
    }
}

// Adds `error LINE: ` and the words for where the line goes wrong.
fn add_wrong(out: &mut String, number: u64, words: &str) -> Result<(), AllocError>
    ensures { OnOk result (string_bytes out.new
        ≡ string_bytes out.old ++ (codes "error " ++ decimal number ++ codes ": " ++ words.now ++ line_feed)) }
{
    write!(out, "error {number}: {words}\n")
}

/// Adds the line of an answer on this memory. `name` is the name of the refusal, if the answer is one. If the line
/// isn't in the grammar, it is the words for where the line goes wrong. If a backup isn't kept, it is the words for
/// why. At an error, a part of the line may have been added.
pub fn add_answer(
    out: &mut String,
    memory: &Memory,
    answer: LineAnswer,
    name: &str,
) -> Result<(), AllocError>
    ensures { OnOk result (string_bytes out.new
        ≡ string_bytes out.old ++ answer_text name.now memory.now.contents answer) }
{
    match answer {
        LineAnswer::Served(command, answer) => add_served(out, command, answer, name),
        LineAnswer::Looked(look) => add_look(out, memory, look, name),
        LineAnswer::Window(element, answer) => add_window(out, element, answer, name),
        LineAnswer::Room(room) => write!(out, "room {room}\n"),
        LineAnswer::Turned(done) => {
            add_turn(out, done)?;
            out.push_str("\n")
        }
        LineAnswer::Count(count) => write!(out, "count {count}\n"),
        LineAnswer::About(about) => add_about(out, about),
        LineAnswer::Backup(backup, kept) => add_backup(out, backup, kept, name),
        LineAnswer::Wrong(number, _) => add_wrong(out, number, name),
    }
}
