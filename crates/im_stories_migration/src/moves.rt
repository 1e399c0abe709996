//! Migrations, and what the two files mean.

use im_migration::{length_for, migrate};
use im_report::inspect_on;
use im_story::{Phrase, Printout, Saying, change};
use im_story_disk::StoryFile;
use im_types::Unobserved;

/// Migrates the image of a file to another file. Tells how many commands it has, or why that is refused.
pub fn move_on(old: &mut StoryFile, new: &mut StoryFile, said: &mut Saying) {
    let (Some(mut from), Some(to)) = (old.taken(), new.taken()) else {
        return said.fail("there is no old file, or no new one");
    };
    match migrate(old.alloc, &mut from, to, &mut Unobserved) {
        Ok((to, count)) => {
            new.lay_down(to);
            write!(said, "migrated {count}")
        }
        Err((refusal, to)) => {
            new.lay_down(to);
            said.refusal(refusal)
        }
    }
    old.lay_down(from)
}

/// Tells the result of migrating copies, one of which has a byte at a place: `with [old] PLACE:BYTE`.
pub fn tell_with(old: &StoryFile, new: &StoryFile, call: &Phrase, said: &mut Saying) {
    let (mut old, mut new) = (old.copy(), new.copy());
    let is_put = match (change(call.word(1)), change(call.word(2))) {
        (Some((at, byte)), _) => new.put(at, &[byte]),
        (_, Some((at, byte))) => old.put(at, &[byte]),
        _ => false,
    };
    said.so(is_put, "");
    move_on(&mut old, &mut new, said)
}

/// Tells how long the file has to be to which the image is migrated.
pub fn tell_length(old: &mut StoryFile, said: &mut Saying) {
    let Some(mut disk) = old.taken() else {
        return said.fail("there is no such file");
    };
    said.result(
        length_for(old.alloc, &mut disk),
        |length, said| said.number(length),
    );
    old.lay_down(disk)
}

/// Returns the report of a file. It's empty if there is no file.
pub fn report(file: &mut StoryFile) -> Printout {
    let mut out = Printout::new(file.alloc);
    if let Some(disk) = file.taken() {
        let (_status, disk) = inspect_on(file.alloc, disk, &mut out, &mut Unobserved);
        file.lay_down(disk);
    }
    out
}

// Returns what a report says of the memory: its lines from the fifth on.
fn memory_part(report: &Printout) -> Option<&str> {
    report.text().splitn(5, '\n').nth(4)
}

/// Returns whether the new file means the memory that the old one means, by their reports.
pub fn are_same(old: &mut StoryFile, new: &mut StoryFile) -> bool {
    let (of_old, of_new) = (report(old), report(new));
    match (memory_part(&of_old), memory_part(&of_new)) {
        (Some(old), Some(new)) => old == new,
        _ => false,
    }
}
