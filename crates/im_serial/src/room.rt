//! One command by itself: room is made for it in the journal, and it is served. Why a request is refused.
ghost use Rattle.std.specs.Prelude.{◌≡◌, ℕ, IfOk, OnErr, Ok};
ghost use Rattle.im_types.specs.Types.{bounds};
ghost use Rattle.im_session.specs.Serving.{CommandRefused, CommandServed};

use im_checkpoint::TurnDone;
use im_disk::Disk;
use im_engine::Engine;
use im_session::Session;
use im_text::{Progress, Reason};
use im_types::{Command, Entry, Observer, Outcome, Refusal};

/// How far a server has come. It counts the checkpoints that come into force.
#[derive(Drop)]
pub(crate) struct ServerProgress {
    pub(crate) told: Progress,
}

impl Observer<TurnDone> for ServerProgress {
    fn tell(&mut self, done: TurnDone) {
        if let TurnDone::InForce = done {
            self.told.checkpoints = self.told.checkpoints.saturating_add(1);
        }
    }
}

/// Makes room for a command by turns of a checkpoint, and serves it.
pub fn serve_one<D: Disk>(
    session: &mut Session<D>,
    progress: &mut ServerProgress,
    command: &Command,
) -> Result<Outcome, Refusal>
    ensures served { IfOk result (λ outcome. CommandServed session.old command.now outcome session.new) }
    ensures refused { OnErr result (CommandRefused session.old command.now session.new) }
{
    match session.make_room(1, progress) {
        // A crash in this call leaves the command on the disk, whole, or not at all. It isn't answered before.
        Ok(()) => session.serve_kept(command),
        Err(refusal) => Err(refusal),
    }
}

// Returns how many entries of these numbers wait.
fn count_waiting<D: Disk>(engine: &Engine<D>, element: u16, base: u64, next: u64) -> u64 {
    let mut waiting = 0_u64;
    for number in base..next {
        if engine.collect(element, number) == Ok(Entry::Waiting) {
            waiting = waiting.saturating_add(1);
        }
    }
    waiting
}

/// Returns why an element's request is refused. If the window is full, the reason says how many of its requests wait.
pub fn reason_of<D: Disk>(engine: &Engine<D>, element: u16, refusal: Refusal) -> Reason {
    match (refusal, engine.window(element)) {
        (Refusal::WindowFull, Ok((base, next))) => {
            let waiting = count_waiting(engine, element, base, next);
            Reason::Window {
                element,
                waiting,
                answered: next.saturating_sub(base).saturating_sub(waiting),
            }
        }
        _ => Reason::Request(element, refusal),
    }
}

/// Returns the number of an element's next request.
pub fn next_number<D: Disk>(engine: &Engine<D>, element: u16) -> Result<u64, Refusal>
    ensures { IfOk result (λ next. (base : ℕ) × (bounds engine.now.memory.windows element ≡ Ok (base, next))) }
{
    match engine.window(element) {
        Ok((_, next)) => Ok(next),
        Err(refusal) => Err(refusal),
    }
}
