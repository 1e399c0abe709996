//! What engines do by themselves: requests, turns and runs. They take no memory, except for the answers of a run, so it
//! is the disk that fails. Then the same disk is opened again, and has what was answered, or one request more.

use crate::disks::{has_answered, open_again, state};
use crate::requests::{ALL, add_answer, lacks_memory, request};
use im_checkpoint::TurnDone;
use im_session::{Answer, Event};
use im_story::Saying;
use im_story_disk::StoryFile;
use im_types::{Command, Outcome, Refusal};

// More turns than there are.
const TURNS: u32 = 100;

// Tells an answer. Returns whether it is one; if not, the disk has failed.
fn is_told(answer: Result<Outcome, Refusal>, said: &mut Saying) -> bool {
    match answer {
        Ok(outcome) => add_answer(said, outcome),
        Err(refusal) => said.so(refusal == Refusal::Device, ""),
    }
    answer.is_ok()
}

// Serves the requests from one place to another, up to the first at which the disk fails. Returns its place.
fn serve_from(place: &mut StoryFile, from: usize, upto: usize, said: &mut Saying) -> usize {
    let Some(engine) = &mut place.engine else {
        return from;
    };
    let mut left = from..upto;
    let failed = left.find(|at| !is_told(engine.serve(&Command::Request(request(*at))), said));
    failed.unwrap_or(upto)
}

/// Serves the rest of the requests, from one place to another, if the disk has failed. All of them have to be answered
/// then.
pub fn serve_rest(place: &mut StoryFile, from: usize, upto: usize, said: &mut Saying) {
    if state(place).failed {
        open_again(place, said);
        let is_there = has_answered(place, from) || has_answered(place, from.saturating_add(1));
        said.so(is_there, "");
        let _upto = serve_from(place, from, upto, said);
    }
    said.so(has_answered(place, upto), "")
}

/// Serves the first of the requests.
pub fn serve_first(place: &mut StoryFile, many: usize, said: &mut Saying) {
    let at = serve_from(place, 0, many, said);
    serve_rest(place, at, many, said)
}

// Takes turns until none is left. Returns whether there is none.
fn take_turns(place: &mut StoryFile) -> bool {
    let Some(engine) = &mut place.engine else {
        return false;
    };
    for _ in 0..TURNS {
        match engine.turn() {
            Ok(TurnDone::Idle) => return true,
            Ok(_) => {}
            Err(_) => return false,
        }
    }
    false
}

/// Makes a checkpoint of all requests. Turns that were refused have changed no memory, and are taken again.
pub fn turn(place: &mut StoryFile, said: &mut Saying) {
    if !take_turns(place) {
        open_again(place, said);
        said.so(has_answered(place, ALL) && take_turns(place), "");
    }
    said.so(has_answered(place, ALL), "")
}

// Adds the answers of a run, up to the first at which the disk fails. Returns how many there are.
fn add_answers(said: &mut Saying, answers: &[Answer]) -> usize {
    let failed = answers.iter().position(|answer| match answer {
        Answer::Served(answer) => !is_told(*answer, said),
        _ => {
            said.fail("a command isn't answered");
            true
        }
    });
    failed.unwrap_or(answers.len())
}

// Runs events, and tells the answers. Returns how many there are, or why nothing was done.
fn run_once(place: &mut StoryFile, events: &[Event], said: &mut Saying) -> Result<usize, Refusal> {
    let answers = place.run(events)?;
    Ok(add_answers(said, answers.as_slice()))
}

/// Runs all requests on a new image, and again if there was no room for their answers: nothing was done then. If the
/// disk has failed, the rest of the run is served.
pub fn run(place: &mut StoryFile, said: &mut Saying) {
    // Without the room it grows as it gets its first.
    let mut events = Vec::with_capacity(place.alloc, ALL).unwrap_or(Vec::new(place.alloc));
    for at in 0..ALL {
        let event = Event::Command(Command::Request(request(at)));
        said.so(events.push(event).is_ok(), "");
    }
    let before = state(place);
    let mut done = run_once(place, events.as_slice(), said);
    if let Err(refusal) = done {
        let is_same = state(place) == before && has_answered(place, 0);
        lacks_memory(refusal, is_same, said);
        done = run_once(place, events.as_slice(), said);
    }
    said.result(done, |at, said| serve_rest(place, at, ALL, said))
}
