//! The work of a command line on files, as far as it takes one thread.

use im_disk::{FileDisk, Unknown};
use im_program::{
    AtHand, CommandLine, Console, Work, copy_file, demonstrate, dump_file, format_file,
    inspect_file, load_file, migrate_file, refuse, serve_file,
};
use im_story::Printout;
use im_text::Style;
use im_types::{Limits, Refusal};

// The disk of a file of which nothing is known.
type OnDisk = FileDisk<Unknown>;

// The limits that are asked for.
fn limits_of(cells: u32, elements: u32, slots: u32) -> Result<Limits, Refusal> {
    let Ok(elements) = u16::try_from(elements) else {
        return Err(Refusal::BadLimits);
    };
    Limits::new(cells, elements, slots).ok_or(Refusal::BadLimits)
}

// The status of work on one file.
fn of_one(done: Result<(u8, OnDisk), Refusal>) -> Result<u8, Refusal> {
    let (status, _disk) = done?;
    Ok(status)
}

// The status of work on two files.
fn of_two(done: Result<(u8, OnDisk, OnDisk), Refusal>) -> Result<u8, Refusal> {
    let (status, _new, _old) = done?;
    Ok(status)
}

// Does the work. It is refused if it is of another kind.
fn done(
    hand: AtHand<'_, HostRuntime, &[u8], Console<'_, HostRuntime>>,
    line: &CommandLine,
    out: &mut Printout,
) -> Result<u8, Refusal> {
    match line.work {
        Work::Demonstration => Ok(demonstrate(hand.rt.alloc(), out, hand.observer)),
        Work::Format(it) => {
            let limits = limits_of(it.cells, it.elements, it.slots)?;
            let _disk = format_file(hand, it.image, limits, it.is_new, Unknown)?;
            Ok(0)
        }
        Work::Serial(it) => of_one(serve_file(hand, &it, out, Unknown)),
        Work::Inspect(it) => of_one(inspect_file(hand, it.image, &it.look, out, Unknown)),
        Work::Dump(it) => of_one(dump_file(hand, &it, out, Unknown)),
        Work::Load(it) => of_one(load_file(hand, &it, out, Unknown)),
        Work::Migrate(it) => of_two(migrate_file(hand, &it, out, (Unknown, Unknown))),
        Work::Copy(it) => of_two(copy_file(hand, &it, out, (Unknown, Unknown))),
        _ => Err(Refusal::BadScript),
    }
}

// How a refusal of the work is said.
fn style_of(line: &CommandLine) -> Style {
    match line.work {
        Work::Serial(it) => it.style,
        _ => Style::Text,
    }
}

/// Does the work of a command line, and prints its refusal. Returns the status.
pub fn do_work(
    hand: AtHand<'_, HostRuntime, &[u8], Console<'_, HostRuntime>>,
    line: &CommandLine,
    out: &mut Printout,
) -> u8 {
    let alloc = hand.rt.alloc();
    match done(hand, line, out) {
        Ok(status) => status,
        Err(refusal) => refuse(alloc, style_of(line), refusal, out),
    }
}
