//! Commands, groups, chains of groups, turns and sweeps. They are done one by one, or planned and run.

use crate::engines::Engines;
use crate::known::served;
use arrayvec::ArrayVec;
use im_checkpoint::TurnDone;
use im_engine::Group;
use im_session::{Answer, Event};
use im_story::{Cases, Phrase, Saying, command};
use im_types::{Command, MAX_GROUP, Refusal, Request, Served};

// Reads commands that are written with `with` between them.
fn commands_of(words: &[&str]) -> Option<ArrayVec<Command, MAX_GROUP>> {
    let mut members = ArrayVec::new();
    for part in words.split(|word| *word == "with") {
        members.try_push(command(part)?).ok()?;
    }
    Some(members)
}

// Reads what is put ahead: commands that are written so, or `none`.
fn next_of(call: &Phrase) -> Option<ArrayVec<Command, MAX_GROUP>> {
    match call.word(1) {
        "none" => Some(ArrayVec::new()),
        _ => commands_of(call.rest(1)),
    }
}

/// Returns these requests as a group. There is none if a confirmation is among them, or two of one element.
pub fn group_of(commands: &[Command]) -> Option<Group> {
    let mut members = ArrayVec::new();
    for command in commands {
        let Command::Request(request) = *command else {
            return None;
        };
        members.try_push(request).ok()?;
    }
    Group::new(members)
}

// Reads `1.1 fetch 0` or `16 times 1.1 fetch 0`. Returns the command that asks so under a number that is `more` higher.
fn command_of(call: &Phrase, more: u64) -> Option<Command> {
    let from = if call.word(1) == "times" { 2 } else { 0 };
    match command(call.rest(from))? {
        Command::Request(request) => Some(Command::Request(Request {
            number: request.number.saturating_add(more),
            ..request
        })),
        confirmation => Some(confirmation),
    }
}

// Reads an event, of which the one that comes behind `more` others is meant: `turn`, `3 turns`, `sweep 64`, requests of
// different elements with `with` between them, the same behind a group that is ahead, nothing behind it, or a command.
fn event_of(call: &Phrase, more: u64) -> Option<Event> {
    match (call.form(), call.word(0)) {
        ("turn" | "_ turns", _) => Some(Event::Turn),
        ("sweep _", _) => Some(Event::Sweep(call.address(0))),
        (_, "behind") => Some(Event::Ahead(group_of(&next_of(call)?)?)),
        (_, "together") => Some(Event::Group(group_of(&commands_of(call.rest(1))?)?)),
        _ => Some(Event::Command(command_of(call, more)?)),
    }
}

// Returns how often an event is meant.
fn times_of(call: &Phrase) -> u64 {
    match call.word(1) {
        "turns" | "times" => call.number(0),
        _ => 1,
    }
}

// Does an event, and keeps its answer. The script notes a command; nothing else may change the count. Returns the room
// after it.
fn act(engines: &mut Engines, event: Event, said: &mut Saying) -> u32 {
    let (Some(engine), Some(script)) = (&mut engines.file.engine, &mut engines.script) else {
        said.fail("no engine");
        return 0;
    };
    let count = engine.count();
    let answer = match event {
        Event::Command(command) => {
            let answer = engine.serve(&command);
            said.check(script.note(command, served(answer), engine.count()));
            Answer::Served(answer)
        }
        Event::Turn => Answer::Turned(engine.turn()),
        Event::Sweep(most) => Answer::Swept(engine.sweep(most)),
        Event::Group(_) | Event::Ahead(_) => {
            said.fail("a group is served otherwise");
            return 0;
        }
    };
    said.check(engine.count() == count || matches!(answer, Answer::Served(_)));
    said.check(engines.answers.push(answer).is_ok());
    engine.room()
}

// Does the event that the words tell, as often as they say. Tells the answers; and of several turns or a sweep the room
// after each.
fn act_each(engines: &mut Engines, call: &Phrase, said: &mut Saying) {
    let (mut rooms, mut cases) = (Saying::new(said.alloc()), Cases::none(said.alloc()));
    engines.answers.clear();
    for more in 0..times_of(call) {
        let Some(event) = event_of(call, more) else {
            return said.fail("that is no call");
        };
        let room = act(engines, event, said);
        add_number(&mut cases, u64::from(room), &mut rooms);
    }
    cases.end(&mut rooms);
    add_answers(said, engines.answers.as_slice());
    if let "_ turns" | "sweep _" = call.form() {
        said.text("; room ");
        said.also(&rooms)
    }
}

// Serves commands as one group: any commands, or requests of different elements. Tells the answers.
fn serve_group(engines: &mut Engines, call: &Phrase, said: &mut Saying) {
    let (Some(engine), Some(members)) = (&mut engines.file.engine, commands_of(call.rest(1))) else {
        return said.fail("no engine, or no commands");
    };
    let mut served = ArrayVec::new();
    match group_of(&members) {
        _ if call.word(0) == "commands" => engine.serve_commands(&members, &mut served),
        Some(group) => engine.serve_group(group.requests(), &mut served),
        None => said.fail("that is no group"),
    }
    add_served(said, served.as_slice())
}

// Puts commands ahead behind the group that is. Tells how many are ahead, and the answers of that group.
fn advance(engines: &mut Engines, call: &Phrase, said: &mut Saying) {
    let (Some(engine), Some(next)) = (&mut engines.file.engine, next_of(call)) else {
        return said.fail("no engine, or no commands");
    };
    let mut served = ArrayVec::new();
    let result = engine.advance(&next, &mut served);
    add_advanced(said, result, served.as_slice())
}

// Plans that the next run has an event as often as the words say, or serves the commands of the story so far. Tells how
// many events there are then.
fn plan(engines: &mut Engines, call: &Phrase, said: &mut Saying) {
    let planned = Phrase::of(call.alloc(), call.rest(1));
    if let ("as told", Some(script)) = (planned.form(), &engines.script) {
        let told = script.commands.iter().map(|it| Event::Command(*it));
        said.check(engines.events.extend(told).is_ok());
    } else {
        for more in 0..times_of(&planned) {
            match event_of(&planned, more) {
                Some(event) => said.check(engines.events.push(event).is_ok()),
                None => said.fail("that is no event"),
            }
        }
    }
    write!(said, "{} events", engines.events.len())
}

// Runs what was planned.
fn run(engines: &mut Engines, said: &mut Saying) {
    let run = engines.file.run(engines.events.as_slice());
    engines.events.clear();
    said.result(run, |answers, said| {
        write!(said, "{} answers", answers.len());
        engines.answers = answers;
    })
}

// Adds the answers of a group's members.
fn add_served(said: &mut Saying, served: &[Served]) {
    for (at, answer) in served.iter().enumerate() {
        said.either(at == 0, "", ", ");
        match *answer {
            Served::Done(outcome) => said.outcome(Ok(outcome)),
            Served::Refused(refusal) => said.refusal(refusal),
            Served::Unserved => said.fail("a member has no answer"),
        }
    }
}

// Adds how many members are ahead, and the answers of the group that was.
fn add_advanced(said: &mut Saying, taken: Result<usize, Refusal>, served: &[Served]) {
    match taken {
        Ok(many) => write!(said, "{many} ahead ["),
        Err(refusal) => {
            said.refusal(refusal);
            said.text(" [")
        }
    }
    add_served(said, served);
    said.text("]")
}

// Adds an answer. Returns the number of its page, if it is one; then the text has none.
fn add_answer(said: &mut Saying, answer: &Answer) -> Option<u32> {
    match answer {
        Answer::Served(outcome) => said.outcome(*outcome),
        Answer::Grouped(room, served) => {
            write!(said, "room {room} [");
            add_served(said, served.as_slice());
            said.text("]")
        }
        Answer::Advanced(_, result, served) => add_advanced(said, *result, served.as_slice()),
        Answer::Turned(Ok(TurnDone::Idle)) => said.text("idle"),
        Answer::Turned(Ok(TurnDone::Began)) => said.text("began"),
        Answer::Turned(Ok(TurnDone::Page(page))) => {
            said.text("page");
            return Some(*page);
        }
        Answer::Turned(Ok(TurnDone::Synced)) => said.text("synced"),
        Answer::Turned(Ok(TurnDone::InForce)) => said.text("in force"),
        Answer::Turned(Ok(TurnDone::Swept)) => said.text("swept"),
        Answer::Swept(Ok(slots)) => write!(said, "swept {slots}"),
        Answer::Turned(Err(refusal)) | Answer::Swept(Err(refusal)) => said.refusal(*refusal),
    }
    None
}

// Adds answers in order. Equal ones in a row are added as one, and so are pages that follow one another.
fn add_answers(said: &mut Saying, answers: &[Answer]) {
    let mut cases = Cases::none(said.alloc());
    for answer in answers {
        let mut one = Saying::new(said.alloc());
        let page = add_answer(&mut one, answer);
        cases.take(page.map(u64::from), &one, said);
    }
    cases.end(said)
}

/// Takes in the next number. Equal ones in a row are told as one.
pub fn add_number(cases: &mut Cases, number: u64, said: &mut Saying) {
    let mut one = Saying::new(said.alloc());
    one.number(number);
    cases.take(None, &one, said)
}

/// Does the events that the words tell, plans and runs them, or tells answers of the last run, from one to another.
pub fn tell(engines: &mut Engines, call: &Phrase, said: &mut Saying) {
    match (call.form(), call.word(0)) {
        ("run", _) => run(engines, said),
        ("answers _ to _", _) => {
            let (from, to) = (call.place(0), call.place(1).saturating_add(1));
            let answers = engines.answers.get(from..to);
            said.given(answers, "there are not so many answers", |answers, said| {
                add_answers(said, answers)
            })
        }
        (_, "plan") => plan(engines, call, said),
        (_, "behind") => advance(engines, call, said),
        (_, "together" | "commands") => serve_group(engines, call, said),
        _ => act_each(engines, call, said),
    }
}
