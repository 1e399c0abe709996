//! The words of a command line, and the work that they ask for.

use crate::ProgramDesk;
use crate::spelling::{add_text, add_word};
use im_migration::Asked;
use im_program::{CommandLine, Talking, WordFault, Work, read_words};
use im_report::View;
use im_story::{Phrase, Saying};
use im_text::Style;

fn add_size(said: &mut Saying, size: Option<u32>, name: &str) {
    if let Some(number) = size {
        write!(said, ", {number} {name}")
    }
}

fn add_sizes(said: &mut Saying, asked: Asked) {
    add_size(said, asked.cells, "cells");
    add_size(said, asked.elements, "elements");
    add_size(said, asked.slots, "slots")
}

fn add_look(said: &mut Saying, image: &str, look: View) {
    match look {
        View::Stat | View::StatJson => write!(said, "count in {image}"),
        View::DumpJson => write!(said, "dump {image}"),
        View::Report(filter) | View::ReportJson(filter) => {
            write!(said, "tell of {image}");
            if let Some(span) = filter.cells {
                write!(said, ", cells {} to {}", span.from, span.to)
            }
            add_size(said, filter.element, "is the element");
            said.either(filter.waiting, ", who waits", "")
        }
    }
    let is_json = matches!(look, View::StatJson | View::DumpJson | View::ReportJson(_));
    said.either(is_json, ", as JSON", "")
}

fn add_talk(said: &mut Saying, talk: &Talking<&str>) {
    write!(said, "talk on {}", talk.image);
    said.either(talk.watch, ", watched", ", unwatched");
    said.either(talk.verbose, ", with a log", "")
}

fn add_work(said: &mut Saying, work: &Work<&str>) {
    match *work {
        Work::Demonstration => said.text("demonstration"),
        Work::Format(it) => {
            write!(said, "make {} of {} cells", it.image, it.cells);
            write!(said, ", {} elements, {} slots", it.elements, it.slots);
            said.either(it.is_new, ", where none is", "")
        }
        Work::Serial(it) => {
            write!(said, "serve {} on {}", it.script, it.image);
            said.either(it.once, ", once", "");
            said.either(it.strict, ", strictly", "")
        }
        Work::Run(run) => {
            write!(said, "run {} on {}", run.script, run.image);
            said.either(run.planned, ", planned", "");
            said.either(run.once, ", once", "");
            said.either(run.strict, ", strictly", "");
            if let Some(path) = run.trace {
                write!(said, ", traced to {path}")
            }
        }
        Work::Serve(it) => add_talk(said, &it),
        Work::Inspect(it) => add_look(said, it.image, it.look),
        Work::Dump(it) => {
            write!(said, "dump {}", it.image);
            said.either(it.damaged, ", damaged too", "")
        }
        Work::Load(it) => {
            write!(said, "load {} into {}", it.from, it.new);
            add_sizes(said, it.asked)
        }
        Work::Migrate(it) => write!(said, "move {} on to {}", it.old, it.new),
        Work::Copy(it) => {
            write!(said, "copy {} to {}", it.from, it.new);
            add_sizes(said, it.asked)
        }
    }
}

fn style_of(work: &Work<&str>) -> Style {
    match *work {
        Work::Serial(it) => it.style,
        Work::Run(it) => it.style,
        _ => Style::Text,
    }
}

fn add_line(said: &mut Saying, line: &CommandLine) {
    add_work(said, &line.work);
    said.either(line.statuses, ", by statuses", "");
    said.either(line.progress, ", with progress", "");
    said.text(match style_of(&line.work) {
        Style::Text => "",
        Style::Quiet => ", quietly",
        Style::Json => ", as JSON",
    });
    if line.wait > 0 {
        write!(said, ", waiting {} s", line.wait)
    }
}

/// Reads a command line, whose words are spelled as in a text. Tells its work, or the status that it ends with.
pub fn read(desk: &mut ProgramDesk, call: &Phrase, said: &mut Saying) {
    let alloc = call.alloc();
    let mut spelled = Vec::new(alloc);
    for word in call.words() {
        add_word(&mut spelled, word, said);
        said.so(spelled.push(b'\n').is_ok(), "");
    }
    let text = str::from_utf8(spelled.as_slice()).unwrap_or("");
    let Ok(words) = text.split_terminator('\n').collect::<Vec<&str>>(alloc) else {
        return said.fail("no memory is left");
    };
    match read_words(alloc, words.as_slice()) {
        Ok(line) => add_line(said, &line),
        Err(WordFault::NoMemory) => said.text("no memory"),
        Err(WordFault::Bad(error)) => {
            desk.fault = Saying::new(alloc);
            write!(desk.fault, "{error}");
            write!(said, "status {}", error.exit_code())
        }
    }
}

/// Tells whether these words are in what was said about a bad command line.
pub fn find(desk: &ProgramDesk, call: &Phrase, said: &mut Saying) {
    let mut spelled = Vec::new(call.alloc());
    add_text(&mut spelled, call.rest(1), said);
    let text = str::from_utf8(spelled.as_slice()).unwrap_or("\n\n");
    said.either(desk.fault.said().contains(text), "yes", "no")
}
