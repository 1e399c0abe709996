//! Why work is refused: what that says, and how the program ends.

use crate::ProgramDesk;
use im_damage::Damage;
use im_program::refuse;
use im_story::{Phrase, Saying};
use im_text::{CallFault, PathFault, Reason, Style};
use im_types::Refusal;
use std::io::ErrorKind;

// The fault of a write for which there is no space.
const FULL: CallFault = CallFault::Write(ErrorKind::StorageFull);

// Returns the reason of this name, with the call's numbers.
fn reason_of(name: &str, call: &Phrase) -> Option<Reason> {
    Some(match name {
        "no memory" => Reason::Memory,
        "in use" => Reason::File(PathFault::InUse),
        "no folder" => Reason::NewFile(PathFault::NoFolder),
        "one file" => Reason::NewFile(PathFault::Same),
        "unsynced" => Reason::File(PathFault::Unsynced),
        "no permission" => Reason::File(PathFault::System(ErrorKind::PermissionDenied)),
        "there" => Reason::File(PathFault::Exists),
        "fifo" => Reason::File(PathFault::NotFile),
        "output unknown" => Reason::Output(ErrorKind::Uncategorized),
        "input closed" => Reason::NoInput,
        "full disk new" => Reason::Unmade(Some(FULL), false),
        "full disk old" => Reason::Unmade(Some(FULL), true),
        "sync failed" => Reason::Call(CallFault::Sync(ErrorKind::Uncategorized)),
        "write failed" => Reason::Call(FULL),
        "read failed" => Reason::NewCall(CallFault::Read(ErrorKind::Uncategorized)),
        "image closed" => Reason::Image(Refusal::NoHeader, Damage::Closed),
        "image unmade" => Reason::Image(Refusal::NoHeader, Damage::Unmade),
        "image old" => Reason::Image(Refusal::OldVersion, Damage::Unknown),
        "image unread" => Reason::Image(Refusal::Device, Damage::Unknown),
        "image current" => Reason::Current,
        "image not blank" => Reason::New(Refusal::NotBlank),
        "cells _" => Reason::Cells(call.address(0)),
        "elements _" => Reason::Elements(call.address(0)),
        "slots _" => Reason::Slots(call.address(0)),
        "place of element _" => Reason::Place(call.element(0)),
        "window full _ _" => Reason::Window {
            element: 1,
            waiting: call.number(0),
            answered: call.number(1),
        },
        _ => return None,
    })
}

/// Tells what a reason says, or the status of a program that distinguishes its refusals.
pub fn tell(call: &Phrase, said: &mut Saying) {
    let (asked, name) = call.form().split_once(' ').unwrap_or(("", ""));
    let name = name.strip_prefix("of ").unwrap_or(name);
    match (asked, reason_of(name, call)) {
        ("reason", Some(reason)) => write!(said, "{reason}"),
        (_, Some(reason)) => said.number(reason.status()),
        _ => said.fail("there is no such reason"),
    }
}

/// Prints that there was no memory. Tells the status.
pub fn refuse_memory(desk: &mut ProgramDesk, said: &mut Saying) {
    desk.print(usize::MAX);
    let status = refuse(
        desk.rt.alloc(),
        Style::Text,
        Refusal::NoMemory,
        &mut desk.out,
    );
    said.number(status)
}
