//! The result of a crash and an opening.
ghost use Rattle.std.specs.Prelude.{◌≡◌, ℕ, false, ◌⊎◌, List, [], IfOk, IfErr};
ghost use Rattle.im_types.specs.Types.{Device, NoMemory, WrongLength, empty_contents};
ghost use Rattle.{im_disk.specs.Moment.Left, im_engine.specs.State.IsFirstFault, im_engine.specs.State.MeansState};
ghost use Rattle.im_promise.specs.Recovery.{HasNoRoom, Recovers, RecoversSession};

use im_disk::{Crash, FuseDisk, MemDisk, Mode};
use im_engine::{Engine, files_mean_one_thing, steps_tell_of_no_failure};
use im_laws::{accepted_where_changed, groups_are_runs};
use im_session::{Answer, Event, Session, groups_acknowledge_what_they_put};
use im_types::{Limits, Refusal};
use std::alloc::Global;

/// The result of a run: the answer to each event, and the engine opened after the crash.
#[derive(Drop)]
pub struct Recovered {
    /// The answers, in the order of the events.
    pub answers: Vec<Answer>,
    /// The engine over what the crash left.
    pub engine: Engine<MemDisk>,
}

/// An outage: when a disk fails, how, and what the crash behind it leaves.
#[derive(Clone, Copy)]
pub struct Outage {
    /// The calls of the disk that pass before it fails.
    pub passes: u64,
    /// The mode in which it fails.
    pub mode: Mode,
    /// What the crash leaves.
    pub crash: Crash,
}

/// Runs commands, groups, turns and sweeps on an engine whose disk may fail at any call, crashes the disk, and opens
/// what is left: every accepted command that was answered is there.
///
/// Returns `NoMemory` or `Device` if `alloc` or the record of the disk in memory refused room. It never returns a fault
/// of the image. An engine that had failed before answers nothing.
///
/// Ensures, in words, of an engine that worked:
///
/// - `recovers`, answers: each event is answered in its turn, as the sequential memory does; after a call of the disk
///   that failed, `Failed`.
/// - `recovers`, memory and count: they are those after all acknowledged commands, in their order. The commands of the
///   call in doubt may follow, all of them or none.
/// - `recovers`, doubt: at most one call is in doubt, so at most one command, or the members of one group.
/// - `works`: the engine that is returned works.
/// - `refused`: it is `NoMemory` or `Device`.
pub fn recover(
    alloc: Global,
    engine: Engine<FuseDisk>,
    events: &[Event],
    crash: Crash,
) -> Result<Recovered, Refusal>
    ensures recovers { IfOk result (λ r. engine.failed ≡ false
        → Recovers engine.memory engine.count engine.ahead events.now r.answers.items
        r.engine.memory r.engine.count) }
    ensures works { IfOk result (λ r. r.engine.failed ≡ false) }
    ensures refused { IfErr result (λ e. engine.failed ≡ false → HasNoRoom e) }
{
    accepted_where_changed();
    groups_are_runs();
    groups_acknowledge_what_they_put();
    steps_tell_of_no_failure();
    if engine.failed() {
        return recover_failed(alloc, engine, crash);
    }
    let mut session = Session::of(engine);
    let answers = match session.run(alloc, events) {
        Ok(answers) => answers,
        Err(refusal) => return Err(refusal),
    };
    // The crash leaves a file that could be left. It means the memory with all or none of the commands in doubt.
    match recover_session(alloc, session, crash) {
        Ok(engine) => Ok(Recovered { answers, engine }),
        Err(refusal) => Err(refusal),
    }
}

// Crashes the disk of an engine that has failed, and opens what is left. Nothing is asked of it before.
fn recover_failed(
    alloc: Global,
    engine: Engine<FuseDisk>,
    crash: Crash,
) -> Result<Recovered, Refusal>
    ensures works { IfOk result (λ r. r.engine.failed ≡ false) }
{
    match open_crashed(alloc, engine.close().into_inner(), crash) {
        Ok(engine) => Ok(Recovered {
            answers: Vec::new(alloc),
            engine,
        }),
        Err(refusal) => Err(refusal),
    }
}

/// Does the same as [`recover`] for an image that it formats first. The outage counts the calls of the format too.
///
/// Returns `WrongLength` if the disk doesn't have the length of such an image.
pub fn recover_from_format(
    alloc: Global,
    disk: MemDisk,
    limits: Limits,
    outage: Outage,
    events: &[Event],
) -> Result<Recovered, Refusal>
    ensures recovers { IfOk result (λ r. Recovers (empty_contents limits.cells limits.elements) 0 []
        events.now r.answers.items r.engine.memory r.engine.count) }
    ensures works { IfOk result (λ r. r.engine.failed ≡ false) }
    ensures refused { IfErr result (λ e. (e ≡ NoMemory) ⊎ (e ≡ Device) ⊎ (e ≡ WrongLength)) }
{
    let fused = FuseDisk::new(disk, outage.passes, outage.mode);
    match Engine::format(alloc, fused, limits) {
        Ok(engine) => recover(alloc, engine, events, outage.crash),
        Err((refusal, _)) => Err(refusal),
    }
}

/// Does the same as [`recover`] for an engine that came from an opening, as after an earlier crash. So any number of
/// crashes is covered. It opens the image again, and the outage counts the calls of the opening too.
///
/// Returns `Device` if the opening was stopped. [`reopen`] says what is there then.
pub fn recover_again(
    alloc: Global,
    engine: Engine<MemDisk>,
    outage: Outage,
    events: &[Event],
) -> Result<Recovered, Refusal>
    ensures recovers { IfOk result (λ r. engine.failed ≡ false
        → Recovers engine.memory engine.count [] events.now r.answers.items
        r.engine.memory r.engine.count) }
    ensures works { IfOk result (λ r. r.engine.failed ≡ false) }
    ensures refused { IfErr result (λ e. engine.failed ≡ false → HasNoRoom e) }
{
    files_mean_one_thing();
    let fused = FuseDisk::new(engine.close(), outage.passes, outage.mode);
    match Engine::open(alloc, fused) {
        Ok(opened) => recover(alloc, opened, events, outage.crash),
        Err((refusal, _)) => Err(refusal),
    }
}

// Opens an image on a disk that may fail, and gives the disk back in either case.
fn open_and_close(alloc: Global, disk: MemDisk, passes: u64, mode: Mode) -> FuseDisk
    ensures { (file : List ℕ) → Left result.disk.moment file → Left disk.moment file }
{
    match Engine::open(alloc, FuseDisk::new(disk, passes, mode)) {
        Ok(opened) => opened.close(),
        Err((_, unopened)) => unopened,
    }
}

/// Crashes a disk, and opens what is left.
pub(crate) fn open_crashed(
    alloc: Global,
    disk: MemDisk,
    crash: Crash,
) -> Result<Engine<MemDisk>, Refusal>
    ensures works { IfOk result (λ e. e.failed ≡ false) }
    ensures left { IfOk result (λ e. Left disk.moment e.disk.moment.bytes) }
    ensures means { IfOk result (λ e. MeansState e e.disk.moment.bytes) }
    ensures refused { IfErr result (λ e. (e ≡ NoMemory) ⊎ (e ≡ Device)
        ⊎ ((file : List ℕ) × Left disk.moment file × IsFirstFault e file)) }
{
    match Engine::open(alloc, disk.crash(crash)) {
        Ok(engine) => Ok(engine),
        Err((refusal, _)) => Err(refusal),
    }
}

/// Opens an engine's image again, and the outage counts the calls of that opening. So it may stop at each of them. Then
/// it crashes the disk and opens what is left. The memory and the count are as they were.
pub fn reopen(
    alloc: Global,
    engine: Engine<MemDisk>,
    outage: Outage,
) -> Result<Engine<MemDisk>, Refusal>
    ensures same { IfOk result (λ e. engine.failed ≡ false → (e.memory ≡ engine.memory) × (e.count ≡ engine.count)) }
    ensures works { IfOk result (λ e. e.failed ≡ false) }
    ensures refused { IfErr result (λ e. engine.failed ≡ false → HasNoRoom e) }
{
    files_mean_one_thing();
    let disk = open_and_close(alloc, engine.close(), outage.passes, outage.mode);
    open_crashed(alloc, disk.into_inner(), outage.crash)
}

/// Ends a session whose disk may have failed at any call, crashes the disk, and opens what is left: every accepted
/// command that was acknowledged is there.
pub fn recover_session(
    alloc: Global,
    session: Session<FuseDisk>,
    crash: Crash,
) -> Result<Engine<MemDisk>, Refusal>
    ensures recovers { IfOk result (λ e. RecoversSession session e.memory e.count) }
    ensures works { IfOk result (λ e. e.failed ≡ false) }
    ensures refused { IfErr result (λ e. HasNoRoom e) }
{
    files_mean_one_thing();
    open_crashed(alloc, session.close().into_inner(), crash)
}
