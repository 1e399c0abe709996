//! Random walks. One compares the fast memory with the plain one. One stops an engine again and again, and one stops it
//! at each call in turn, with the plain memory beside it: an opening has to find what was answered.

use crate::known::{KnownEngine, are_alike, does_work, is_wrong_at};
use arrayvec::ArrayVec;
use im_disk::{Crash, Mode};
use im_memory::Memory;
use im_story::{Dice, Phrase, Saying};
use im_story_disk::STEADY;
use im_story_plain::PlainMemory;
use im_types::{Command, Limits, MAX_GROUP, Request};

// The cells of each memory.
const CELLS: u32 = 24;

// A whole group has room, and a checkpoint with its sweeps has to make room soon.
const SLOTS: u32 = 24;

// The most events between two stops.
const EVENTS: u64 = 100;

// The ways in which a disk fails at a call, each with the crash after that. The first four have each crash.
const WAYS: [(Mode, Crash); 6] = [
    (Mode::Stop, Crash::Kept),
    (Mode::Stop, Crash::Lost),
    (Mode::Stop, Crash::Byte(0xA5)),
    (Mode::Stop, Crash::Byte(0)),
    (Mode::Scar(0xA5), Crash::Kept),
    (Mode::Once, Crash::Lost),
];

// Returns how many numbers of an element these commands take.
fn numbers_of(element: u16, commands: &[Command]) -> u64 {
    let mut numbers: u64 = 0;
    for command in commands {
        if matches!(command, Command::Request(request) if request.element == element) {
            numbers = numbers.saturating_add(1);
        }
    }
    numbers
}

// Returns a command of an element of a memory, or of one element more, behind commands that haven't acted yet: those
// that are ahead, and those before it. One in five confirms. Element 0 asks for nothing that may wait, so that one
// element always continues. One in two requests under a number that is kept asks for what was asked for before.
fn command(dice: &mut Dice, plain: &PlainMemory, ahead: &[Command], before: &[Command]) -> Command {
    let element = dice.below(plain.elements() as u32 + 1) as u16;
    let (base, known) = plain.window(element).unwrap_or((1, 1));
    let taken = numbers_of(element, ahead).saturating_add(numbers_of(element, before));
    let command = dice.command(element, (base, known.saturating_add(taken)), CELLS);
    let Command::Request(request) = command else {
        return command;
    };
    let op = match plain.kept(element, request.number) {
        Some(kept) if dice.below(2) == 0 => kept.op,
        _ if element == 0 => dice.answered_at_once(CELLS),
        _ => request.op,
    };
    Command::Request(Request { op, ..request })
}

// Returns up to sixteen commands of any elements, some of one element: each behind those before it, and behind those
// that are ahead.
fn group(dice: &mut Dice, plain: &PlainMemory, ahead: &[Command]) -> ArrayVec<Command, MAX_GROUP> {
    let mut members = ArrayVec::new();
    for _ in 0..dice.below(16) + 1 {
        let member = command(dice, plain, ahead, members.as_slice());
        let _is_full = members.try_push(member);
    }
    members
}

// Puts random commands to a fast memory and a plain one, which have to judge and answer them alike, and compares them
// after every 500. The call's first two numbers say how many, and from which seed. Returns how many were accepted.
fn walk(limits: Limits, call: &Phrase, said: &mut Saying) -> u64 {
    let (Ok(mut fast), Ok(mut plain)) = (
        Memory::new(call.alloc(), limits),
        PlainMemory::new(call.alloc(), limits),
    ) else {
        said.fail("no memory is left");
        return 0;
    };
    let (mut dice, mut accepted) = (Dice::new(call.number(1)), 0u64);
    for turn in 0..call.number(0) {
        let command = command(&mut dice, &plain, &[], &[]);
        let judged = plain.judge(&command);
        let is_alike = fast.judge(&command) == judged
            && fast.step(&command) == plain.step(&command);
        said.check(is_alike && (turn % 500 != 0 || are_alike(&fast, &plain)));
        accepted = accepted.saturating_add(u64::from(judged == Ok(true)));
    }
    said.check(are_alike(&fast, &plain));
    accepted
}

// Returns the commands that are put ahead next: one time in three none.
fn next(dice: &mut Dice, known: &KnownEngine) -> ArrayVec<Command, MAX_GROUP> {
    if dice.below(3) == 0 {
        return ArrayVec::new();
    }
    group(dice, &known.plain, known.ahead.as_slice())
}

// Makes a random turn, sweep, group or command, or puts a group ahead; mostly a turn if there is no room. Returns
// whether the disk works on.
fn goes(known: &mut KnownEngine, dice: &mut Dice, said: &mut Saying) -> bool {
    let Some(engine) = &mut known.file.engine else {
        said.fail("no engine");
        return false;
    };
    let room = engine.room() as usize;
    if room == 0 && dice.below(8) > 0 {
        return does_work(engine.turn().err(), said);
    }
    match dice.below(8) {
        0 => does_work(engine.turn().err(), said),
        1 => does_work(engine.sweep(dice.below(20)).err(), said),
        2 | 3 => {
            let members = group(dice, &known.plain, &[]);
            let mut answers = ArrayVec::new();
            engine.serve_commands(&members, &mut answers);
            known.hears(&members, &answers, room, said)
        }
        4 | 5 | 6 => {
            let members = next(dice, known);
            known.advance(&members, said)
        }
        _ => {
            let command = command(dice, &known.plain, &[], &[]);
            known.serve(&command, said)
        }
    }
}

// Closes the engine, and lets its disk crash in any way.
fn crash(known: &mut KnownEngine, dice: &mut Dice) {
    let (_, crash) = WAYS[dice.below(4) as usize];
    known.file.close();
    let _crashed = known.file.crash(crash);
}

// Opens what a crash left. Now and then that is stopped too, and another crash comes.
fn open(known: &mut KnownEngine, dice: &mut Dice, said: &mut Saying) {
    for _ in 0..2 {
        if known.opens((u64::from(dice.below(200)), Mode::Stop), said) {
            return;
        }
        crash(known, dice);
    }
    let _is_open = known.opens((100, Mode::Stop), said);
}

// Stops an engine again and again, at any call of any turn, command or opening. The call's first two numbers say how
// often, and from which seed. Returns how many commands were accepted.
fn wander(limits: Limits, call: &Phrase, said: &mut Saying) -> u64 {
    let Some(mut known) = KnownEngine::begin(call.alloc(), limits, STEADY) else {
        said.fail("there is no image");
        return 0;
    };
    let mut dice = Dice::new(call.number(1));
    for turn in 0..call.number(0) {
        open(&mut known, &mut dice, said);
        known.has_all(said);
        let _works = (0..EVENTS).all(|_| goes(&mut known, &mut dice, said));
        crash(&mut known, &mut dice);
        if is_wrong_at(turn, said) {
            break;
        }
    }
    known.count
}

// Makes events on a disk that fails so, and opens what the crash leaves. Then it serves what is asked. Returns whether
// the disk has stopped.
fn stops(limits: Limits, call: &Phrase, fuse: (u64, Mode), then: Crash, said: &mut Saying) -> bool {
    let Some(mut known) = KnownEngine::begin(call.alloc(), limits, fuse) else {
        said.fail("there is no image");
        return false;
    };
    let mut dice = Dice::new(call.number(1));
    let works = (0..call.number(0)).all(|_| goes(&mut known, &mut dice, said));
    known.reopen(Some(then), said);
    let works_again = (0..8u64).all(|_| goes(&mut known, &mut dice, said));
    said.check(works_again);
    known.has_all(said);
    !works
}

// Stops an engine at each call of the same events in turn, in each way. The call's first two numbers say how many
// events there are, and from which seed. Returns how many calls there were.
fn explore(limits: Limits, call: &Phrase, said: &mut Saying) -> u64 {
    // A format makes four calls.
    for passes in 4..100_000u64 {
        let is_stopped = WAYS.iter().all(|(mode, crash)| stops(
            limits,
            call,
            (passes, *mode),
            *crash,
            said,
        ));
        if is_wrong_at(passes, said) || !is_stopped {
            return passes;
        }
    }
    said.fail("the calls don't end");
    0
}

/// Makes a walk. Behind the word come how many commands, stops or events, a seed, and how many commands have to be
/// accepted, or calls to be stopped at. Returns whether the call is one.
pub fn tell(call: &Phrase, said: &mut Saying) -> bool {
    // Each element of an engine that is stopped at each call has a page of its own in both areas of the image, which is
    // made anew for each call: so there are few.
    let elements = match call.word(0) {
        "walk" => 4,
        "wander" => 16,
        "explore" => 6,
        _ => return false,
    };
    let Some(limits) = Limits::new(CELLS, elements, SLOTS) else {
        return false;
    };
    let found = match call.word(0) {
        "walk" => walk(limits, call, said),
        "wander" => wander(limits, call, said),
        _ => explore(limits, call, said),
    };
    if !said.is_wrong() && found > call.number(2) {
        said.either(call.word(0) == "walk", "alike", "nothing lost")
    } else if !said.is_wrong() {
        said.fail("there are ");
        said.number(found)
    }
    true
}
