//! Calls on a journal.

use crate::blind::StoryDisk;
use crate::desk::ImageDesk;
use crate::disks::add_passed;
use im_disk::Disk;
use im_journal::{Journal, read, spell};
use im_story::{Phrase, Saying, asked, command};
use im_types::layout::Version;
use im_types::{Command, LAST, MAX_GROUP, Op, Refusal};

// Lets element 0 fetch cell 0, by its requests 1 to `upto`.
fn append_fetches(disk: &mut StoryDisk, journal: &mut Journal, upto: u64) -> Result<(), Refusal> {
    for before in 0..upto {
        let fetch = asked(0, before + 1, Op::Fetch(0));
        journal.append(disk, &Command::Request(fetch))?;
    }
    Ok(())
}

// Appends the command that the words tell, or those with `and` between them as one group.
fn append(disk: &mut StoryDisk, journal: &mut Journal, call: &Phrase, said: &mut Saying) {
    let mut commands = Vec::new(call.alloc());
    for part in call.rest(1).split(|word| *word == "and") {
        said.given(command(part), "no command", |command, said| {
            said.so(commands.push(command).is_ok(), "")
        })
    }
    if commands.is_empty() || commands.len() > MAX_GROUP {
        return said.fail("no group has so many commands");
    }
    let answer = match call.word(0) {
        "group" => journal.append_group(disk, &commands),
        _ => journal.append(disk, &commands[0]),
    };
    said.done(answer, "ok")
}

// Returns the version of the image that the call is of.
fn version_of(call: &Phrase) -> Version {
    match call.word(0) {
        "old" => Version::One,
        _ => Version::Two,
    }
}

// Reads the run from a count on.
fn tail(here: &mut ImageDesk, call: &Phrase, said: &mut Saying) {
    let (from, version) = (call.number(0), version_of(call));
    let (Some(disk), Some(limits), true) = (&mut here.disk, here.limits, from <= LAST) else {
        return said.fail("there is no disk, or no such count, or there are no sizes");
    };
    let tail = Journal::read_tail(call.alloc(), disk, version, limits, from);
    said.result(tail, |(journal, commands), said| {
        write!(said, "{} commands, room {}", commands.len(), journal.room());
        here.journal = Some(journal);
        here.commands = Some(commands);
    })
}

fn command_read(here: &ImageDesk, at: usize) -> Option<Command> {
    here.commands.as_ref()?.get(at).copied()
}

fn begin_later(journal: &mut Journal, first: u64, said: &mut Saying) {
    if journal.first() > first || first > journal.count() {
        return said.fail("the run has no such command");
    }
    journal.begin_later(first);
    said.text("ok")
}

fn sweep(disk: &mut StoryDisk, journal: &mut Journal, said: &mut Saying) {
    if journal.to_sweep() == 0 {
        return said.fail("there is nothing to sweep");
    }
    said.result(journal.sweep_turn(disk), |gates, said| {
        write!(said, "{gates} gates")
    })
}

// Puts the slot of a command in its place, or all of it but the gate. Or tells its code, and whether the same command
// is read from it.
fn tell_slot(here: &mut ImageDesk, call: &Phrase, words: &[&str], said: &mut Saying) {
    let Some(command) = command(words) else {
        return said.fail("no command");
    };
    let (sequence, version) = (call.number(0), version_of(call));
    let bytes = spell(&command, sequence);
    if call.word(0) == "spell" {
        write!(said, "code {}, read ", bytes[2]);
        return said.either(read(&bytes) == Some(command), "again", "as another");
    }
    let (Some(disk), Some(limits)) = (&mut here.disk, here.limits) else {
        return said.fail("there is no disk, or there are no sizes");
    };
    let place = (sequence % limits.slots as u64) as usize;
    let at = version.journal_at(limits) + 64 * place;
    match call.word(0) {
        "body" => add_passed(said, disk.write_at(at + 1, &bytes[1..])),
        _ => add_passed(said, disk.write_at(at, &bytes)),
    }
}

/// Makes a call on the journal. Returns whether it is one.
pub fn tell(here: &mut ImageDesk, call: &Phrase, said: &mut Saying) -> bool {
    match (call.word(0), call.form(), &mut here.disk, &mut here.journal) {
        (_, "tail _" | "old tail _", _, _) => tail(here, call, said),
        (_, "command _", _, _) => said.command(command_read(here, call.place(0))),
        (_, "first", _, Some(journal)) => said.number(journal.first()),
        (_, "count", _, Some(journal)) => said.number(journal.count()),
        (_, "room", _, Some(journal)) => said.number(journal.room()),
        (_, "to sweep", _, Some(journal)) => said.number(journal.to_sweep()),
        (_, "begin later _", _, Some(journal)) => begin_later(journal, call.number(0), said),
        (_, "append fetches _ to _", Some(disk), Some(journal)) => {
            said.done(append_fetches(disk, journal, call.number(1)), "ok")
        }
        (_, "sweep", Some(disk), Some(journal)) => sweep(disk, journal, said),
        ("append" | "group", _, Some(disk), Some(journal)) => append(disk, journal, call, said),
        ("slot" | "body" | "spell", _, _, _) => tell_slot(here, call, call.rest(2), said),
        ("old", _, _, _) if call.word(1) == "slot" => tell_slot(here, call, call.rest(3), said),
        _ => return false,
    }
    true
}
