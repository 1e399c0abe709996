//! An act is stopped at each call of the disk in turn, and what is found after the image is opened again, beside the
//! plain memory.

use crate::engines::{Engines, StoryScript};
use crate::events::{add_number, group_of};
use crate::known::{KnownEngine, are_alike, are_refused, does_work, is_wrong_at, served};
use arrayvec::ArrayVec;
use im_disk::{Crash, Mode};
use im_engine::Group;
use im_session::{Answer, Event};
use im_story::{Cases, Phrase, Saying, asked, crash, mode};
use im_story_disk::{STEADY, StoryFile};
use im_types::{Command, LAST, MAX_GROUP, Op, Refusal};

// What is stopped, and how: an opening of an image with the whole script, or a reopening of one that was stopped in its
// last command; the script as one group, or as one that is put ahead; the turns after it; a call, which is an opening
// of a copy of the file with the turns after that; or the run that was planned. Then the disk crashes, or is opened as
// it is; and it may crash again after an opening.
#[derive(Drop)]
struct Trial<'s, 'c> {
    script: &'s StoryScript,
    bytes: &'s [u8],
    events: &'s [Event],
    act: &'c str,
    mode: Mode,
    crash: Option<Crash>,
    next: Option<Crash>,
    known: KnownEngine,
}

// Returns the requests of a group as commands.
fn commands_of(group: &Group) -> ArrayVec<Command, MAX_GROUP> {
    let mut commands = ArrayVec::new();
    for request in group.requests().as_slice() {
        let _pushed = commands.try_push(Command::Request(*request));
    }
    commands
}

// Returns whether an event was answered `Failed`.
fn has_failed(answer: &Answer) -> bool {
    match answer {
        Answer::Served(answer) => *answer == Err(Refusal::Failed),
        Answer::Turned(answer) => *answer == Err(Refusal::Failed),
        Answer::Swept(answer) => *answer == Err(Refusal::Failed),
        Answer::Grouped(_, answers) => are_refused(answers, Refusal::Failed),
        Answer::Advanced(_, result, _) => *result == Err(Refusal::Failed),
    }
}

impl Trial<'_, '_> {
    // Makes a new image on a disk that fails so, `more` calls behind a format and these commands, at four calls each.
    fn begin(&mut self, commands: u64, more: u64, mode: Mode, said: &mut Saying) {
        let calls = commands.saturating_add(1).saturating_mul(4);
        let fuse = (calls.saturating_add(more), mode);
        match KnownEngine::begin(said.alloc(), self.script.limits, fuse) {
            Some(known) => self.known = known,
            None => said.fail("there is no image"),
        }
    }

    // Checks that the plain memory answers the script as it was told, and that the engine of the story has that memory.
    fn agrees_with(&mut self, file: &StoryFile, said: &mut Saying) {
        if self.act == "run" {
            return;
        }
        self.known.hears_script(self.script, said);
        if let Some(engine) = &file.engine {
            said.check(are_alike(engine.memory(), &self.known.plain))
        }
    }

    // Returns whether the engine has failed. It answers nothing then, not even a repeat, or a command that no memory
    // would take.
    fn is_over(&mut self) -> bool {
        let Some(engine) = &mut self.known.file.engine else {
            return false;
        };
        let unknown = Command::Request(asked(self.script.limits.elements, 1, Op::Fetch(0)));
        let mut commands = self.script.commands.iter();
        commands.all(|command| engine.serve(command) == Err(Refusal::Failed))
            && engine.serve(&unknown) == Err(Refusal::Failed)
            && engine.collect(0, 1) == Err(Refusal::Failed)
            && engine.window(0) == Err(Refusal::Failed)
            && engine.failed()
    }

    // Serves the script up to the failure in the command behind this many, or to the end. All that comes after a
    // failure has to be answered `Failed`.
    fn serve_up_to(&mut self, count: u64, said: &mut Saying) {
        let (script, mut works) = (self.script, true);
        for command in script.commands.iter() {
            works = works && self.known.serve(command, said);
        }
        said.check(self.known.count == count && works == (count == script.len()));
        said.check(works || self.is_over())
    }

    // Takes in the answer to an event. After the disk has stopped it has to be `Failed`. A group is that of the script.
    // Returns whether the disk still works.
    fn hears(&mut self, works: bool, event: &Event, answer: &Answer, said: &mut Saying) -> bool {
        match (event, answer) {
            _ if !works => said.check(has_failed(answer)),
            (Event::Command(command), Answer::Served(answer)) => {
                return self
                    .known
                    .hears(&[*command], &[served(*answer)], usize::MAX, said);
            }
            (Event::Ahead(group), Answer::Advanced(were, result, answers)) => {
                said.check(were.as_slice() == self.known.ahead.as_slice());
                let next = commands_of(group);
                return self
                    .known
                    .hears_advanced(next.as_slice(), *result, answers, said);
            }
            (Event::Group(_), Answer::Grouped(room, answers)) => {
                let commands = self.script.commands.as_slice();
                return self.known.hears(commands, answers, *room as usize, said);
            }
            (Event::Turn, Answer::Turned(done)) => return does_work(done.err(), said),
            (Event::Sweep(_), Answer::Swept(slots)) => return does_work(slots.err(), said),
            _ => said.fail("an event is answered otherwise"),
        }
        false
    }

    // Runs the events. Returns whether the disk stops.
    fn does_run_stop(&mut self, said: &mut Saying) -> bool {
        let Ok(answers) = self.known.file.run(self.events) else {
            said.fail("there is no run");
            return false;
        };
        let (events, has_failed) = (
            self.events,
            self.known
                .file
                .engine
                .as_ref()
                .is_some_and(|it| it.failed()),
        );
        let mut works = true;
        for (event, answer) in events.iter().zip(answers.as_slice()) {
            works = self.hears(works, event, answer, said);
        }
        said.check(answers.len() == events.len() && works != has_failed);
        !works
    }

    // Does the act on a disk that passes the given number of calls. Returns whether it was stopped.
    fn is_stopped(&mut self, passes: u64, said: &mut Saying) -> bool {
        let count = self.script.len();
        let before = count.saturating_sub(1);
        let (commands, more, mode, serves) = match self.act {
            "group" | "chain" | "run" => (0, passes, self.mode, None),
            "turn" => (count, passes, self.mode, Some(count)),
            "reopening" => (before, 3, Mode::Stop, Some(before)),
            "call" => (0, LAST, Mode::Stop, None),
            _ => (0, LAST, Mode::Stop, Some(count)),
        };
        self.begin(commands, more, mode, said);
        if let Some(count) = serves {
            self.serve_up_to(count, said)
        }
        if self.act == "call" {
            self.known.hears_script(self.script, said);
            said.check(self.known.file.lay(self.bytes, self.bytes.len()))
        }
        let opens = matches!(self.act, "opening" | "reopening" | "call");
        opens && !self.known.opens((passes, self.mode), said) || self.does_run_stop(said)
    }

    // Opens what the crashes leave of a disk that has stopped. Returns how many commands are found: all that were
    // answered, and those in doubt or none of them. All of the script acts once when it is sent again.
    fn found(&mut self, said: &mut Saying) -> u64 {
        self.known.reopen(self.crash, said);
        let found = self.known.count;
        if self.next.is_some() {
            self.known.reopen(self.next, said);
        }
        if self.act != "run" {
            self.serve_up_to(self.script.len(), said);
            self.known.has_all(said);
            // Each command has its slot. Turns may have made room.
            let free = match &self.known.file.engine {
                Some(engine) => u64::from(engine.room()),
                None => 0,
            };
            let slots = free.saturating_add(self.known.count);
            let is_swept = matches!(self.act, "turn" | "call");
            said.check(is_swept || slots == u64::from(self.script.limits.slots))
        }
        found
    }

    // Lets this call of a serve fail once for each command. Returns in how many cases the command was found, besides
    // all those before it.
    fn times_found(&mut self, call: u64, said: &mut Saying) -> u64 {
        let mut times: u64 = 0;
        for served in 0..self.script.len() {
            self.begin(served, call, self.mode, said);
            self.serve_up_to(served, said);
            let found = self.found(said);
            times = times.saturating_add(u64::from(found > served));
            if is_wrong_at(served, said) {
                break;
            }
        }
        times
    }

    // Tells in how many cases a command was found, for each of the four calls of a serve.
    fn tell_serves(&mut self, said: &mut Saying) {
        for call in 0..4 {
            let times = self.times_found(call, said);
            if is_wrong_at(call, said) {
                return;
            }
            write!(said, "{times} ");
        }
        write!(said, "of {}", self.script.len())
    }

    // Tells how many commands are found for each call of an act, up to the first that passes.
    fn tell_acts(&mut self, said: &mut Saying) {
        let mut cases = Cases::none(said.alloc());
        for passes in 0..1_000 {
            if !self.is_stopped(passes, said) {
                return cases.end(said);
            }
            let found = self.found(said);
            if is_wrong_at(passes, said) {
                return;
            }
            add_number(&mut cases, found, said);
        }
        said.fail("the calls don't end")
    }
}

// Returns the events that are stopped: a group, which is put once more, at once or in a chain, or turns, more than
// there are to be made.
fn events_of(act: &str, script: &StoryScript, said: &mut Saying) -> Vec<Event> {
    let mut events = Vec::new(said.alloc());
    let times = match act {
        "group" => 2,
        "chain" => 3,
        "turn" | "call" => 200,
        _ => 0,
    };
    for at in 0..times {
        let event = match act {
            "group" => group_of(&script.commands).map(Event::Group),
            "chain" if at < 2 => group_of(&script.commands).map(Event::Ahead),
            "chain" => group_of(&[]).map(Event::Ahead),
            _ => Some(Event::Turn),
        };
        said.check(event.is_some_and(|event| events.push(event).is_ok()))
    }
    events
}

/// Makes the call `in each` with `serve`, `opening`, `reopening`, `group`, `chain`, `turn`, `call` or `run`. Then come
/// how the disk fails at each call of that, and what the crashes after it leave. `call` uses the closed file. All
/// others but `run` use an image that gets the commands of the story so far, one by one or as one group. The plain
/// memory has to answer the script as it was told, and the engine of the story has to have that memory.
pub fn tell(engines: &Engines, call: &Phrase, said: &mut Saying) {
    let (crash, next) = (crash(call.word(4)), crash(call.word(5)));
    let words = 4 + usize::from(crash.is_some()) + usize::from(next.is_some());
    let is_whole = call.words().len() == words;
    let (Some(mode), Some(script), true) = (mode(call.word(3)), &engines.script, is_whole) else {
        return said.fail("that is no way to stop");
    };
    let Some(known) = KnownEngine::begin(call.alloc(), script.limits, STEADY) else {
        return said.fail("there is no image");
    };
    let (act, made) = (call.word(2), events_of(call.word(2), script, said));
    let (planned, made) = (engines.events.as_slice(), made.as_slice());
    let mut trial = Trial {
        script,
        bytes: engines.file.bytes(),
        events: if act == "run" { planned } else { made },
        act,
        mode,
        crash,
        next,
        known,
    };
    trial.agrees_with(&engines.file, said);
    match act {
        "serve" => trial.tell_serves(said),
        "opening" | "reopening" | "group" | "chain" | "turn" | "call" | "run" => trial.tell_acts(
            said,
        ),
        _ => said.fail("that is no act"),
    }
}
