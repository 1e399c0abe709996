//! Why work is refused, in words for a person. An observer is told a reason, and the program prints it.

use crate::faults::{CallFault, PathFault, Words};
use im_damage::Damage;
use im_script::ScriptFault;
use im_types::{MAX_CELLS, MAX_ELEMENTS, MAX_SLOTS, MIN_SLOTS, Refusal};
use std::fmt;
use std::fmt::{Display, Formatter};
use std::io::ErrorKind;

/// Why work is refused or was given up. Its text is for a person, and names no file.
#[derive(Clone, Copy, Debug, PartialEq, Eq)]
pub enum Reason {
    /// There was not enough memory.
    Memory,
    /// A write of the output failed. It has no number, because there is nowhere to print one.
    Output(ErrorKind),
    /// The script can't be read.
    ScriptFile(ErrorKind),
    /// The input of a dialogue can't be read.
    Input(ErrorKind),
    /// The script isn't in the grammar. The fault has the line, the word, and what was expected there.
    Script(ScriptFault),
    /// The script was to be read from standard input, which was closed.
    NoInput,
    /// The image's file can't be made or opened.
    File(PathFault),
    /// No image was made of the file. It has the call that failed, and whether the bytes of an older file are lost.
    Unmade(Option<CallFault>, bool),
    /// A call on the image's open file failed.
    Call(CallFault),
    /// The file is not an image, is damaged, or can't be read or written. It has the place of the damage.
    Image(Refusal, Damage),
    /// The image to be migrated isn't of the first layout version, but of the version in use.
    Current,
    /// The new file of a migration can't be made or opened.
    NewFile(PathFault),
    /// A call on the open new file of a migration failed.
    NewCall(CallFault),
    /// The new file of a migration can't hold the image, or can't be read or written.
    New(Refusal),
    /// An image with this number of cells was asked for.
    Cells(u32),
    /// An image with this number of elements was asked for.
    Elements(u32),
    /// An image with this number of journal slots was asked for.
    Slots(u32),
    /// A block of the setup can't be made. It has the block's place in the setup, from 1.
    Block(usize),
    /// A place in this element's part lies past the last address.
    Place(u16),
    /// A request of this element is refused, or something before it.
    Request(u16, Refusal),
    /// A request is refused because the window of its element is full and the window's oldest request waits.
    Window {
        /// The element.
        element: u16,
        /// The number of kept requests that wait.
        waiting: u64,
        /// The number of kept requests that are answered. They are kept because they come after one that waits.
        answered: u64,
    },
}

const CURRENT: &str = "it is an image of this version: it needs no migration";

// What a refusal means for an image or a request.
fn words(refusal: Refusal) -> &'static str {
    match refusal {
        Refusal::Gap => "its numbers have reached the last that there is",
        Refusal::NoElement => "the image has no such element",
        Refusal::WindowFull => "its window is full",
        Refusal::JournalFull => "the journal is full, and no checkpoint makes room",
        Refusal::Device =>
            "a call of the system failed on the image's file, and the last command is there or not",
        Refusal::Failed => "an earlier call failed on the image's file",
        Refusal::NoMemory => "there is not enough memory",
        Refusal::WrongLength => "the file has not the length of an image",
        Refusal::NoHeader =>
            "neither header is open: it is no image, or one that was never made whole",
        Refusal::BadHeader => "the header in force is damaged",
        Refusal::BadPage => "a page of the area in force is damaged",
        Refusal::BadRecord => "a slot of the journal is damaged",
        Refusal::OldVersion =>
            "it is an image of the first version: 'imem migrate' moves it on to a new file",
        Refusal::Forgotten => "its number was confirmed",
        Refusal::Mismatch => "its number is kept for another operation",
        Refusal::NotAnswered => "an entry still waits",
        Refusal::BadPlan => "it is in no plan: \
             it is neither a fetch nor a store, its cell has a second store, or its cell can't answer it",
        Refusal::Stalled => "the elements wait for each other",
        _ => "it is refused",
    }
}

// What a refusal means for the new file of a migration.
fn new_words(refusal: Refusal) -> &'static str {
    match refusal {
        Refusal::WrongLength =>
            "the file has not the length that the image needs: where there is none, it is made",
        Refusal::NotBlank => "a header in it is open: it is an image, and isn't written over",
        Refusal::Device =>
            "a call of the system failed on one of the two files: the same command begins again",
        _ => words(refusal),
    }
}

impl Reason {
    /// Returns the refusal that is printed for this reason, if there is one.
    pub fn refusal(&self) -> Option<Refusal> {
        match *self {
            Reason::Memory => Some(Refusal::NoMemory),
            Reason::Output(_) => None,
            Reason::ScriptFile(ErrorKind::OutOfMemory) => Some(Refusal::NoMemory),
            Reason::Input(ErrorKind::OutOfMemory) => Some(Refusal::NoMemory),
            Reason::Input(_) => Some(Refusal::Device),
            Reason::Script(fault) => Some(fault.refusal()),
            Reason::ScriptFile(_) | Reason::NoInput => Some(Refusal::BadScript),
            Reason::Block(_) | Reason::Place(_) => Some(Refusal::BadScript),
            Reason::File(_) | Reason::NewFile(_) | Reason::Unmade(_, _) => Some(Refusal::Device),
            Reason::Call(_) | Reason::NewCall(_) => Some(Refusal::Device),
            Reason::Current => Some(Refusal::BadHeader),
            Reason::New(refusal) => Some(refusal),
            Reason::Cells(_) | Reason::Elements(_) | Reason::Slots(_) => Some(Refusal::BadLimits),
            Reason::Image(refusal, _) | Reason::Request(_, refusal) => Some(refusal),
            Reason::Window { .. } => Some(Refusal::WindowFull),
        }
    }

    /// Whether the reason is about the second file that is named: the script, or the new file of a migration. The first
    /// file is the image.
    pub fn is_of_second(&self) -> bool {
        matches!(
            self,
            Reason::ScriptFile(_)
                | Reason::Script(_)
                | Reason::Block(_)
                | Reason::Place(_)
                | Reason::NewFile(_)
                | Reason::NewCall(_)
                | Reason::New(_)
        )
    }
}

// Adds what failed while an image was made, and what the file holds now.
fn add_unmade<W: fmt::Write>(
    f: &mut Formatter<W>,
    fault: Option<CallFault>,
    is_lost: bool,
) -> fmt::Result {
    match fault {
        Some(fault) => write!(f, "{fault}")?,
        None => f.write_str("a call of the system failed")?,
    }
    f.write_str(if is_lost {
        "; no image was made, and what the file held before is lost"
    } else {
        "; no image was made, and no file is left"
    })
}

// Adds which call failed, and what to do then.
fn add_call<W: fmt::Write>(f: &mut Formatter<W>, fault: CallFault) -> fmt::Result {
    write!(f, "{fault}")?;
    f.write_str(match fault {
        CallFault::Sync(_) => "; what is read of it from now on may not be on the disk: \
             mount its file system anew, or restart the machine, before it is opened again",
        _ => "; the last command is there or not",
    })
}

// Adds what keeps a window full.
fn add_full<W: fmt::Write>(f: &mut Formatter<W>, waiting: u64, answered: u64) -> fmt::Result {
    let oldest = if waiting == 1 {
        f.write_str("one request waits")?;
        "it"
    } else {
        write!(f, "{waiting} requests wait")?;
        "the oldest of them"
    };
    match answered {
        0 => {}
        1 => write!(f, ", and 1 answered one stands behind {oldest}")?,
        _ => write!(f, ", and {answered} answered ones stand behind {oldest}")?,
    }
    write!(f, "; no place is given back before {oldest} is answered")
}

// Adds what can't be done, and what the system says.
fn add_kind<W: fmt::Write>(f: &mut Formatter<W>, what: &str, kind: ErrorKind) -> fmt::Result {
    let words = Words(kind);
    write!(f, "{what}: {words}")
}

// Adds a number that is out of its range.
fn add_range<W: fmt::Write>(
    f: &mut Formatter<W>,
    number: u32,
    what: &str,
    range: (u32, u32),
) -> fmt::Result {
    let (least, most) = range;
    write!(f, "{number} {what}: there may be {least} to {most}")
}

// Adds why something on an open new file failed.
fn add_new_call<W: fmt::Write>(f: &mut Formatter<W>, fault: CallFault) -> fmt::Result {
    add_call(f, fault)?;
    f.write_str("; the same command begins again")
}

// Adds what is wrong with an image: where it is damaged, or what the refusal means.
fn add_image<W: fmt::Write>(f: &mut Formatter<W>, refusal: Refusal, damage: Damage) -> fmt::Result {
    match damage {
        Damage::Unknown => f.write_str(words(refusal)),
        _ => write!(f, "{damage}"),
    }
}

// Adds why a request of an element is refused.
fn add_request<W: fmt::Write>(f: &mut Formatter<W>, element: u16, why: &str) -> fmt::Result {
    write!(f, "a request of element {element}: {why}")
}

impl Display for Reason {
    fn fmt<W: fmt::Write>(&self, f: &mut Formatter<W>) -> fmt::Result {
        match *self {
            Reason::Memory => f.write_str("there is not enough memory"),
            Reason::Output(kind) => add_kind(f, "the output can't be written", kind),
            Reason::ScriptFile(kind) => add_kind(f, "the script can't be read", kind),
            Reason::Input(kind) => add_kind(f, "the input can't be read", kind),
            Reason::NoInput => f.write_str("standard input is closed"),
            Reason::Script(fault) => write!(f, "{fault}"),
            Reason::File(fault) | Reason::NewFile(fault) => write!(f, "{fault}"),
            Reason::Unmade(fault, is_lost) => add_unmade(f, fault, is_lost),
            Reason::Call(fault) => add_call(f, fault),
            Reason::NewCall(fault) => add_new_call(f, fault),
            Reason::Current => f.write_str(CURRENT),
            Reason::New(refusal) => f.write_str(new_words(refusal)),
            Reason::Image(refusal, damage) => add_image(f, refusal, damage),
            Reason::Cells(cells) => add_range(f, cells, "cells", (1, MAX_CELLS)),
            Reason::Elements(number) => add_range(f, number, "elements", (1, MAX_ELEMENTS as u32)),
            Reason::Slots(slots) => add_range(f, slots, "slots", (MIN_SLOTS, MAX_SLOTS)),
            Reason::Block(place) => write!(f, "block {place} of the setup can't be made"),
            Reason::Place(element) => {
                write!(
                    f,
                    "a place in a part of element {element} lies past the last address"
                )
            }
            Reason::Request(element, refusal) => add_request(f, element, words(refusal)),
            Reason::Window {
                element,
                waiting,
                answered,
            } => {
                add_request(f, element, "its window is full: ")?;
                add_full(f, waiting, answered)
            }
        }
    }
}
