//! Serves scripts on the image in memory, and prints reports of it. The disk may stop after a number of calls, or lets
//! one fail. A writer may take only a number of bytes.

use crate::ProgramDesk;
use im_report::{Filter, Span, View, inspect_on, look_on};
use im_script::read_script;
use im_serial::{StyledScript, serial_on, serial_once_on};
use im_story::{Phrase, Saying};
use im_text::Style;

// How a script is served.
const SERVINGS: [&str; 6] = [
    "serve",
    "serve once",
    "serve to _ bytes",
    "serve _ calls past the opening",
    "serve but for call _ past the opening",
    "serve once stopped _ calls past the opening",
];

// How the whole report is printed.
const REPORTS: [&str; 3] = ["inspect", "inspect _ calls", "inspect to _ bytes"];

// How often a script that is stopped is served at most.
const MOST: u64 = 100;

// Serves the script that was last read, or what the image doesn't have of it. Returns the status.
fn serve_script(desk: &mut ProgramDesk, is_once: bool, said: &mut Saying) -> u8 {
    let alloc = desk.rt.alloc();
    let Ok(script) = read_script(alloc, desk.read.as_slice()) else {
        said.fail("no script was read");
        return 1;
    };
    let Some(disk) = desk.place.taken() else {
        said.fail("there is no disk");
        return 1;
    };
    let styled = StyledScript {
        script: &script,
        style: Style::Text,
    };
    let (status, disk, _faulted) = if is_once {
        serial_once_on(alloc, disk, &styled, &mut desk.out, &mut desk.notes)
    } else {
        serial_on(alloc, disk, &styled, &mut desk.out, &mut desk.notes)
    };
    desk.place.lay_down(disk);
    status
}

/// Serves the script as the call tells, a stopped one again and again until its status is 0. Tells the last status.
pub fn serve(desk: &mut ProgramDesk, call: &Phrase, said: &mut Saying) {
    said.so(SERVINGS.contains(&call.form()), "");
    let is_past = call.form().ends_with("past the opening");
    let opening = if is_past { desk.opening_calls() } else { 0 };
    let times = if call.word(2) == "stopped" { MOST } else { 1 };
    let mut status = 1;
    for _ in 0..times {
        if status != 0 {
            desk.prepare(call, opening);
            status = serve_script(desk, call.word(1) == "once", said);
        }
    }
    said.number(status)
}

// Returns what a call wants of the image.
fn view_of(call: &Phrase) -> Option<View> {
    let (from, to) = (call.address(0), call.address(1));
    let (span, number) = (Some(Span { from, to }), Some(from));
    let (cells, element, waiting) = match call.form() {
        "stat" => return Some(View::Stat),
        "stat json" => return Some(View::StatJson),
        "inspect cells _ _" => (span, None, false),
        "inspect cells _ _ waiting" => (span, None, true),
        "inspect element _" => (None, number, false),
        "inspect waiting" => (None, None, true),
        "inspect waiting element _" => (None, number, true),
        _ => return None,
    };
    Some(View::Report(Filter {
        cells,
        element,
        waiting,
    }))
}

/// Prints what is wanted of the image, or else the whole report. Tells the status.
pub fn look(desk: &mut ProgramDesk, call: &Phrase, said: &mut Saying) {
    let (alloc, wanted) = (call.alloc(), view_of(call));
    said.so(wanted.is_some() || REPORTS.contains(&call.form()), "");
    desk.prepare(call, 0);
    let Some(disk) = desk.place.taken() else {
        return said.fail("there is no disk");
    };
    let (status, disk) = match wanted {
        Some(wanted) => look_on(alloc, disk, &wanted, &mut desk.out, &mut desk.notes),
        None => inspect_on(alloc, disk, &mut desk.out, &mut desk.notes),
    };
    desk.place.lay_down(disk);
    said.number(status)
}
