//! A group over a crash, and a group that is sent again.
ghost use Rattle.std.specs.Prelude.{◌≡◌, false, [], IfOk, IfErr};
ghost use Rattle.{im_types.specs.Types.AreApart, im_types.specs.Types.Reached, im_session.specs.Events.has_device};
ghost use Rattle.im_promise.specs.Groups.{GroupAskedOverACrash, GroupSaidAgain, HasGroup, IsGroupAnswer, RecoversGroup};
ghost use Rattle.im_promise.specs.Recovery.{HasNoRoom};

use crate::recovery::{Recovered, open_crashed, recover};
use arrayvec::ArrayVec;
use im_disk::{Crash, Disk, FuseDisk, MemDisk};
use im_engine::{Engine, files_mean_one_thing};
use im_laws::{
    accepted_where_changed, forgotten_for_ever, groups_are_runs, repeat_is_told_again, runs_join,
    waiting_agrees,
};
use im_session::{Event, groups_acknowledge_what_they_put};
use im_types::{MAX_GROUP, Refusal, Request, Served};
use std::alloc::Global;

/// A group that was sent again after a crash and an opening.
#[derive(Drop)]
pub struct GroupRepeat {
    /// The answers to the events before, and the engine over what the crash left, after the group.
    pub recovered: Recovered,
    /// The answers to the members, in their order.
    pub again: ArrayVec<Served, MAX_GROUP>,
}

/// Serves a group of requests on an engine whose disk may fail at any call, crashes the disk, and opens what is left.
/// It puts the answers into `served`, in the members' order.
///
/// Returns `NoMemory` or `Device` if `alloc` or the record of the disk in memory refused room. It never returns a fault
/// of the image.
pub fn recover_group(
    alloc: Global,
    mut engine: Engine<FuseDisk>,
    members: &ArrayVec<Request, MAX_GROUP>,
    served: &mut ArrayVec<Served, MAX_GROUP>,
    crash: Crash,
) -> Result<Engine<MemDisk>, Refusal>
    // Each element has one request at most.
    requires apart { AreApart members.now.items }
    requires empty { served.old.items ≡ [] }
    ensures recovers { IfOk result (λ e. engine.failed ≡ false
        → RecoversGroup engine members.now.items served.new.items e) }
    ensures works { IfOk result (λ e. e.failed ≡ false) }
    ensures refused { IfErr result (λ e. engine.failed ≡ false → HasNoRoom e) }
{
    files_mean_one_thing();
    groups_are_runs();
    engine.serve_group(members, served);
    // Whatever the crash leaves could be left, and means the memory without the group, or with all of it.
    open_crashed(alloc, engine.close().into_inner(), crash)
}

/// Sends a group again after any commands, with or without a recovery. The memory has the group's commands. A member
/// that was told an entry is told it again, or the answer that has come since, or `Forgotten` after it was confirmed.
/// It doesn't act again. A member that was refused acts as if sent for the first time. If all were told an entry, the
/// memory stays, and no call of the disk is made. It puts the answers into `served`, in the members' order.
///
/// All members are answered `Device` if one of them is new and the disk fails, and `Failed` if the disk failed before.
pub fn ask_group_again<D: Disk>(
    engine: &mut Engine<D>,
    members: &ArrayVec<Request, MAX_GROUP>,
    served: &mut ArrayVec<Served, MAX_GROUP>,
)
    // Each element has one request at most.
    requires apart { AreApart members.now.items }
    requires empty { served.old.items ≡ [] }
    ensures { engine.old.failed ≡ false → (before : Reached) → HasGroup engine.old.memory before members.now.items
        → GroupSaidAgain before engine.old members.now.items served.new.items engine.new }
{
    repeat_is_told_again();
    forgotten_for_ever();
    accepted_where_changed();
    waiting_agrees();
    runs_join();
    // A stop in it leaves all of the new members on the disk, or none; the others make no call of it.
    engine.serve_group(members, served)
}

/// Serves a group of requests, at most one of each element, runs events on a disk that may fail at any call, crashes
/// the disk, opens what is left, and sends the group again. The first result has the members' first answers, in their
/// order. Nothing is asked of the engine's memory.
///
/// If no member was answered `Device`, the group is there once. Each member that was told an entry is told it again, or
/// the answer that has come since, or `Forgotten` if an event confirmed it. The refusal is then `NoMemory` or `Device`,
/// if `alloc` or the record of the disk in memory refused room. It is never a fault of the image.
pub fn ask_group_over_a_crash(
    alloc: Global,
    mut engine: Engine<FuseDisk>,
    members: &ArrayVec<Request, MAX_GROUP>,
    events: &[Event],
    crash: Crash,
) -> (ArrayVec<Served, MAX_GROUP>, Result<GroupRepeat, Refusal>)
    requires apart { AreApart members.now.items }
    ensures first { engine.failed ≡ false → IsGroupAnswer engine members.now.items result.0.items }
    ensures again { IfOk result.1 (λ r. engine.failed ≡ false → has_device result.0.items ≡ false → GroupAskedOverACrash
        engine members.now.items events.now r.recovered.answers.items r.again.items r.recovered.engine) }
    ensures refused { IfErr result.1 (λ e. engine.failed ≡ false → has_device result.0.items ≡ false → HasNoRoom e) }
{
    repeat_is_told_again();
    forgotten_for_ever();
    accepted_where_changed();
    waiting_agrees();
    runs_join();
    groups_are_runs();
    groups_acknowledge_what_they_put();
    // So that it is known below that waiters and entries agree.
    let _cells = engine.memory().cells();
    // A stop in it leaves all of the group on the disk, or nothing of it.
    let mut first = ArrayVec::new();
    engine.serve_group(members, &mut first);
    match recover(alloc, engine, events, crash) {
        Ok(recovered) => {
            let Recovered {
                answers,
                mut engine,
            } = recovered;
            let mut again = ArrayVec::new();
            // The same holds for the members that are new.
            engine.serve_group(members, &mut again);
            let recovered = Recovered { answers, engine };
            (first, Ok(GroupRepeat { recovered, again }))
        }
        Err(refusal) => (first, Err(refusal)),
    }
}
