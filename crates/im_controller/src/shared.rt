//! What lies under the lock, and the functions that lend the session.
ghost use Rattle.std.specs.Prelude.{◌≡◌, false, ◌⊎◌, length, IfOk, IfErr, IsErrOf};
ghost use Rattle.{im_types.specs.Types.JournalFull, im_types.specs.Types.IsLegal, im_disk.specs.Since.CallsAtMost};
ghost use Rattle.{im_disk.specs.Since.CallsBy, im_engine.specs.Answered.calls_for, im_trace.specs.Log.plain};
ghost use Rattle.im_session.specs.{Keeping.KeepsPut, Serving.Rests, Serving.served_one};
ghost use Rattle.im_controller.specs.Lends.{IsTurnFault, Lends, LendsTurn, told_turn};
ghost use Rattle.im_controller.specs.Planned.{TellsOf};

use crate::keeper::Keeper;
use crate::panes::{put_ahead, show_put};
use crate::plans::has_command;
use im_checkpoint::TurnDone;
use im_disk::Disk;
use im_glass::Pane;
use im_planning::Plan;
use im_queue::Servers;
use im_session::Session;
use im_trace::{Log, Name, Receipt, Reserve, Shown, Tally};
use im_types::{Call, Command, Refusal};
use std::marker::Model;
use std::sync::Wait;

/// What lies under the lock: the session; the trace of all that was answered from it, with books that count its lines;
/// what each element's server does; the shares of the ports that weren't given out yet; and the pane that shows the
/// full cells.
///
/// The trace is legal from the memory that was opened, and it ends in the engine's memory. The pane shows the full
/// cells of the memory that was opened, followed by the changes of the trace.
///
/// The session has put what it had put when the trace began, and then the accepted commands of the trace. So what a
/// crash leaves is what it leaves of the session. Each file that a crash may leave at the time of a line or later has
/// the commands up to that line. No line has an earlier time than one before it.
///
/// If there is a plan, it is under way in the memory that was opened, and it has each request of the trace, and each
/// one that is in doubt.
pub struct Shared<D: Disk, K: Name> {
    pub(crate) session: Session<D>,
    pub(crate) log: Log<K>,
    pub(crate) pane: Pane<Shown<K>>,
    pub(crate) watched: Vec<bool>,
    pub(crate) servers: Servers,
    pub(crate) plan: Option<Plan>,
    pub(crate) reserve: Reserve<K>,
    pub(crate) keeper: Keeper,
    pub(crate) most_room: u32, // The most room that the journal was seen to have.
}

impl<D: Disk, K: Name> Model for Shared<D, K> {
    ghost use Rattle.std.specs.Prelude.{◌≡◌, false, [], length, count_by};
    ghost use Rattle.{im_types.specs.Types.end_of, im_types.specs.Types.shown_by, im_queue.specs.Servers.is_unmade};
    ghost use Rattle.im_controller.specs.{Kept.IsSessionOf, Kept.KeptSince, Planned.KeepsTo, State.SharedState};

    ghost Value = { SharedState D };

    ghost view = { λ s. record {
      session = s.session;
      log = s.log.state;
      servers = s.servers;
      shown = s.pane.shown;
    } };

    ghost invariant = { λ s. (end_of K.origin.memory s.log.state.trace ≡ s.session.engine.memory)
        × (s.pane.shown ≡ shown_by K.origin.memory s.log.state.trace)
        × (s.pane.cells ≡ length K.origin.memory.cells)
        × (s.session.engine.failed ≡ false → s.pane.ahead ≡ [])
        × IsSessionOf D.Disk K.origin s.log.state.trace s.session
        × KeptSince D.Disk K.origin s.log.state.trace s.log.times s.session
        × (s.reserve ≡ count_by is_unmade s.servers)
        × (s.plan ≡ K.origin.plan) × KeepsTo K.origin.memory K.origin.plan s.log.state.trace };
}

/// Lends the session to a command, for the port of this tally. If the answer is an outcome or a refusal of numbers, the
/// trace gets its line and the tally counts it. The pane shows what the command changes after it is on the disk, and
/// never before.
///
/// Errors, in this order:
///
/// - `Failed` if the engine has failed.
/// - `TraceFull` if the trace has no room left.
/// - `OffPlan` if there is a plan that doesn't have the command's operation under its number.
/// - A refusal of numbers or `JournalFull`, as [`Engine::serve`] returns it.
/// - `NoMemory` if the pane has no room for what the command changes. Then all is as it was.
/// - `Device`, as [`Engine::serve`] returns it. After it no line is left, the engine has failed, and nothing more is
///   shown.
pub fn lend<D: Disk, K: Name, R: Wait>(
    rt: &R,
    shared: &mut Shared<D, K>,
    tally: &mut Tally<K>,
    command: &Command,
) -> Result<Receipt<K>, Refusal>
    ensures lends { Lends D.Disk K.origin shared.old tally.old command.now result shared.new tally.new }
    ensures planned { TellsOf K.origin.memory K.origin.plan result }
    ensures legal { IfOk result (λ r. IsLegal K.origin.memory r.history) }
    ensures put { shared.new.session
        ≡ served_one shared.old.session command.now (plain result) shared.new.session.engine }
    ensures keeps { KeepsPut D.Disk shared.old.session shared.new.session }
    ensures calls { D.honest shared.new.session.engine.disk → CallsBy D.past shared.old.session.engine.disk
        shared.new.session.engine.disk (calls_for shared.old.session.engine.memory command.now) result }
{
    let engine = shared.session.engine();
    if engine.failed() {
        return Err(Refusal::Failed);
    }
    if shared.log.room() == 0 {
        return Err(Refusal::TraceFull);
    }
    if !has_command(&shared.plan, command) {
        return Err(Refusal::OffPlan);
    }
    let places = u64::from(engine.room());
    match put_ahead(&mut shared.pane, engine.memory(), places, command) {
        Ok(put) => {
            // A stop in it leaves the command on the disk, whole, or not at all: its answer isn't given before.
            let answer = shared.session.serve_kept(command);
            let after = shared.session.engine();
            shared
                .log
                .leave(tally, Call::Command(*command), answer, after.disk());
            let told = show_put(rt, &mut shared.pane, after.failed(), put);
            shared.log.receipt(told, command, answer)
        }
        Err(_) => Err(Refusal::NoMemory),
    }
}

// Returns what the lender of a turn is told about it.
fn told_turn(room: u32, done: Result<TurnDone, Refusal>) -> Result<TurnDone, Refusal>
    ensures { result ≡ told_turn room done }
{
    match done {
        Ok(TurnDone::Idle) => {
            if room == 0 {
                return Err(Refusal::JournalFull);
            }
            done
        }
        _ => done,
    }
}

// Notes a turn that put a checkpoint in force: the next line of the trace tells it.
fn note_turn<K: Name>(log: &mut Log<K>, done: Result<TurnDone, Refusal>)
    ensures { log.new ≡ log.old }
{
    if matches!(done, Ok(TurnDone::InForce)) {
        log.note_checkpoint();
    }
}

/// Lends the session to one turn of a checkpoint. The memory, the trace and the servers stay as they are. It takes no
/// memory.
///
/// Returns `Failed` exactly if the engine has failed, `Device` if a call of the disk failed, and `JournalFull` if there
/// is nothing to do although the journal has no room.
pub fn lend_turn<D: Disk, K: Name>(shared: &mut Shared<D, K>) -> Result<TurnDone, Refusal>
    ensures lends { LendsTurn shared.old result shared.new }
    ensures only { IfErr result (λ e. IsTurnFault e ⊎ (e ≡ JournalFull)) }
    ensures full { IsErrOf result JournalFull
        → (shared.new.session.engine.room ≡ 0) × (shared.new.session.engine.failed ≡ false) }
    ensures same { Rests shared.old.session shared.new.session }
    ensures keeps { KeepsPut D.Disk shared.old.session shared.new.session }
    ensures few { D.honest shared.new.session.engine.disk
        → CallsAtMost D.past shared.old.session.engine.disk shared.new.session.engine.disk 4 }
{
    // A stop in it leaves the memory as it is.
    let done = shared.session.turn_kept();
    note_turn(&mut shared.log, done);
    told_turn(shared.session.engine().room(), done)
}

// Lends the session to a sweep of at most `most` slots, and returns how many it swept. The memory, the trace and the
// servers stay as they are. It takes no memory.
pub(crate) fn lend_sweep<D: Disk, K: Name>(
    shared: &mut Shared<D, K>,
    most: u32,
) -> Result<u32, Refusal> {
    // A crash in this call leaves the memory as it is.
    shared.session.sweep_kept(most)
}
