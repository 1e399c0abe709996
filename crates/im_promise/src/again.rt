//! Requests that are sent again.
ghost use Rattle.std.specs.Prelude.{◌≡◌, false, List, IfOk, IfErr, Ok};
ghost use Rattle.im_types.specs.Types.{Entry, Command, Tells, Contents, after};
ghost use Rattle.im_laws.specs.Requests.{after_request};
ghost use Rattle.im_promise.specs.Again.{AskedOverACrash, HasNotActed, IsAnswerOf, IsSaidAgain, IsUnused, WasTold};
ghost use Rattle.im_promise.specs.Recovery.{HasNoRoom};

use crate::recovery::{Recovered, open_crashed, recover};
use im_disk::{Crash, Disk, FuseDisk, MemDisk};
use im_engine::{Engine, files_mean_one_thing};
use im_laws::{
    accepted_where_changed, bounds_never_fall, forgotten_for_ever, number_acts_once,
    repeat_is_told_again, request_takes_the_next_number, runs_join,
};
use im_session::{Answer, Event};
use im_types::{Command, Outcome, Refusal, Request};
use std::alloc::Global;

/// A repeat after a crash and an opening: the answers to the events before, and to the request that was sent again.
#[derive(Drop)]
pub struct Repeat {
    /// The answers to the events, in their order.
    pub answers: Vec<Answer>,
    /// The answer to the request.
    pub again: Result<Outcome, Refusal>,
    /// The engine over what the crash left, after the request.
    pub engine: Engine<MemDisk>,
}

/// Sends a request again that was told an entry before, after any commands, with or without a recovery. It is told the
/// same entry, or the answer that has come since, or `Forgotten` after it was confirmed. The memory stays, and no call
/// of the disk is made. The clause asks that waiters and entries agree in the memory that answered. `Memory::cells`
/// says so of each memory of an engine.
pub fn ask_again<D: Disk>(engine: &mut Engine<D>, request: Request) -> Result<Outcome, Refusal>
    ensures { engine.old.failed ≡ false → (entry : Entry) → WasTold engine.old.memory request entry
        → IsSaidAgain engine.old.memory request entry result × (engine.new ≡ engine.old) }
{
    repeat_is_told_again();
    forgotten_for_ever();
    accepted_where_changed();
    engine.serve(&Command::Request(request))
}

/// Sends a request twice. If the memory has used no such number, the request hasn't acted since any earlier memory.
/// That is so after a recovery without the request. Once the request is told an entry, it has acted. Sent again, it
/// doesn't act: the memory has its effect once.
pub fn send_twice<D: Disk>(
    engine: &mut Engine<D>,
    request: Request,
) -> (Result<Outcome, Refusal>, Result<Outcome, Refusal>)
    ensures unheld { (before : Contents) (commands : List Command) → engine.old.memory ≡ after before commands
        → IsUnused engine.old.memory request → HasNotActed before commands request }
    ensures once { engine.old.failed ≡ false → (entry : Entry) → result.0 ≡ Ok (Tells entry)
        → IsSaidAgain engine.new.memory request entry result.1
        × (engine.new.memory ≡ after_request engine.old.memory request) }
{
    request_takes_the_next_number();
    bounds_never_fall();
    runs_join();
    repeat_is_told_again();
    forgotten_for_ever();
    accepted_where_changed();
    // So that it is known below that waiters and entries agree.
    let _cells = engine.memory().cells();
    let command = Command::Request(request);
    let first = engine.serve(&command);
    let second = engine.serve(&command);
    (first, second)
}

/// Sends a request, runs events on a disk that may fail at any call, crashes the disk, opens what is left, and sends
/// the request again. The first result is the request's first answer. Nothing is asked of the engine's memory.
///
/// If the request was first told an entry, it is told it again, or the answer that has come since, or `Forgotten` if an
/// event confirmed it. It has acted once: the memory is the one after it and after the acknowledged events. The second
/// result may then be `NoMemory` or `Device`, if `alloc` or the record of the disk in memory refused room. It is never
/// a fault of the image.
pub fn ask_over_a_crash(
    alloc: Global,
    mut engine: Engine<FuseDisk>,
    request: Request,
    events: &[Event],
    crash: Crash,
) -> (Result<Outcome, Refusal>, Result<Repeat, Refusal>)
    ensures first { IsAnswerOf engine request result.0 }
    ensures again { IfOk result.1 (λ r. engine.failed ≡ false → (entry : Entry) → result.0 ≡ Ok (Tells entry)
        → AskedOverACrash engine request events.now r.answers.items entry r.again r.engine) }
    ensures refused { IfErr result.1 (λ e. engine.failed ≡ false → (entry : Entry) → result.0 ≡ Ok (Tells entry)
        → HasNoRoom e) }
{
    repeat_is_told_again();
    forgotten_for_ever();
    accepted_where_changed();
    // So that it is known below that waiters and entries agree.
    let _cells = engine.memory().cells();
    let command = Command::Request(request);
    // A stop leaves it on the disk or not. If it is answered, it is there.
    let first = engine.serve(&command);
    match recover(alloc, engine, events, crash) {
        Ok(recovered) => {
            let Recovered {
                answers,
                mut engine,
            } = recovered;
            let again = engine.serve(&command);
            let repeat = Repeat {
                answers,
                again,
                engine,
            };
            (first, Ok(repeat))
        }
        Err(refusal) => (first, Err(refusal)),
    }
}

/// Sends a request on a disk that may fail at any call, so that nobody knows whether the request is there. Then it
/// crashes the disk, opens what is left, and sends the request again. If the request is told an entry then, it has
/// acted once, whatever its first answer was and wherever the disk stopped.
pub fn send_over_a_crash(
    alloc: Global,
    mut engine: Engine<FuseDisk>,
    request: Request,
    crash: Crash,
) -> (Result<Outcome, Refusal>, Result<Repeat, Refusal>)
    ensures first { IsAnswerOf engine request result.0 }
    ensures once { IfOk result.1 (λ r. engine.failed ≡ false → (entry : Entry) → r.again ≡ Ok (Tells entry)
        → r.engine.memory ≡ after_request engine.memory request) }
    ensures refused { IfErr result.1 (λ e. engine.failed ≡ false → HasNoRoom e) }
{
    files_mean_one_thing();
    number_acts_once();
    accepted_where_changed();
    let command = Command::Request(request);
    // A stop leaves it on the disk or not.
    let first = engine.serve(&command);
    match open_crashed(alloc, engine.close().into_inner(), crash) {
        Ok(mut engine) => {
            let answer = engine.serve(&command);
            let repeat = Repeat {
                answers: Vec::new(alloc),
                again: answer,
                engine,
            };
            (first, Ok(repeat))
        }
        Err(refusal) => (first, Err(refusal)),
    }
}
